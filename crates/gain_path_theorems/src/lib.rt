// What a power of two does on the codec's own path, from samples to vectors: `covariance`, hypot, `tred2` and `tql2`, the whole of `symmetric_eigen`, and both calls. There is no code here: specs/ has all of it.
#![tactic(auto)]
