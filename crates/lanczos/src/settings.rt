// What the inner `symmetric_eigen` is called with.
ghost use Rattle.lanczos.specs.FitsLaws.{Called};

// Its limit and its edition, as the checks leave them.
#[derive(Clone, Copy)]
pub struct Settings {
    pub limit: usize,
    pub edition: usize,
    ghost called: { Called limit edition },
}
