ghost use Rattle.std.specs.Prelude.{IfOk};
ghost use Rattle.bureau.specs.Fresh.{Fresh};

use desk::day_desk::OneDay;
use std::alloc::{AllocError, Global};

// A trait and no closure: a public function may not require what a supply makes.
/// Where the memory of a new day comes from: a desk whose books hold nothing and whose list has no request, or want of memory.
pub trait Supply<D: OneDay> {
    fn supply(&self, heap: Global) -> Result<D, AllocError>
        ensures { IfOk result (λ d. Fresh D.Q.measure (D.state d)) };
}
