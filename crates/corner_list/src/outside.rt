// Limits outside a basis.
ghost use Rattle.std.specs.Prelude.{◌≤◌};
ghost use Rattle.words.specs.Bounds.{most_limits};
ghost use Rattle.corner_list.specs.Outside.{OutsideAnswer};

// The limit, from 0 and below `limits`, that stands at place `number`, from 0, of those that are not in the mask.
pub fn outside(mask: u32, limits: usize, number: usize) -> Option<usize>
    requires { limits ≤ most_limits }
    ensures { OutsideAnswer mask limits number result }
{
    (0..limits)
        .filter(|limit| (mask >> limit) & 1 == 0)
        .nth(number)
}
