// Which channels count in the linked peak (Change 7).
ghost use Rattle.std.specs.Prelude.{◌≡◌, ◌<◌};
ghost use Rattle.settings.specs.Counted.{counts_in};

use crate::LimiterSettings;

// Whether channel c counts: its bit leaves it out.
pub fn counts_in(settings: LimiterSettings, c: usize) -> bool
    requires { c < 8 }
    ensures { result ≡ counts_in settings c }
{
    (settings.left_out >> c) % 2 == 0
}
