// How a Lanczos step ends, by the norm of what is left.
ghost use Rattle.std.specs.Prelude.{◌≡◌, ◌<◌, length};
ghost use Rattle.lanczos_steps.specs.StepEnd.{step_ended, followed};

use answers::{Answer, answered};
use gram_schmidt::normalise::over;
use grid::LARGEST;
use leaves::{class_of, is_finite};

const LEAST_BETA: f64 = 0.000000000001;

// What follows a step: another one, or the end of the run, where no direction is left.
#[derive(Clone, Copy)]
pub enum Next {
    Step,
    End,
}

// The end of step j, with that beta.
pub fn end(
    j: usize,
    beta: f64,
    w: &[f64],
    be: &mut [f64; LARGEST],
    v: &mut [f64],
) -> Result<Next, Answer>
    requires { (j < 256) × (length w.now ≡ length v.old) }
    ensures { (result, be.new, v.new) ≡ followed (step_ended (length v.old) j beta w.now be.old v.old) }
{
    if !is_finite(beta) {
        return Err(answered(class_of(beta), 5, j, 0));
    }
    if beta > LEAST_BETA {
        be[j] = beta;
        v.copy_from_slice(w);
        over(beta, v);
        return Ok(Next::Step);
    }
    Ok(Next::End)
}
