// The tridiagonal problem of a Lanczos run, and the pairs that it gives.
#![tactic(auto)]

mod tridiagonal_matrix; // The tridiagonal matrix of document 000's Lanczos
pub mod tridiagonal_eigen; // The tridiagonal problem of document 000's Lanczos
mod ritz_pairs; // The Ritz pairs of document 000's Lanczos: k values, then k rows of n numbers
pub mod leading_pairs; // Which of the Ritz pairs are the leading ones, and the look at the answer
