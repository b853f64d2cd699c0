// The sizes that a routine may have, and the records of a listing without wires.
#![tactic(auto)]

ghost use Rattle.std.specs.Prelude.{◌≡◌};
ghost use Rattle.document.specs.Routine.{in_range};
ghost use Rattle.document.specs.Reading.{blanks};

use data::{Kind, Wire};

// 1.12: S and D are in their ranges.
pub fn in_range(s: usize, d: usize) -> bool
    ensures { result ≡ in_range s d }
{
    (1 <= s) & (s <= 8) & (2 <= d) & (d <= 8)
}

// 1.28: the records of an array where there is no wire.
pub fn blank_wires() -> [Wire; 128]
    ensures { result ≡ blanks }
{
    [Wire {
        kind: Kind::Share,
        a: 0,
        b: 0,
        out: false,
    }; 128]
}
