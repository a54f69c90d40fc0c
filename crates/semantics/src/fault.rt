// What can be wrong in a line.
ghost use Rattle.std.specs.Prelude.{◌≡◌};
ghost use Rattle.semantics.specs.Numbers.{fault_number, FaultSays};

// In the order of their numbers, which begin at 1: the line isn't understood; no such name; several such names; declared before; another
// type is wanted; another number of arguments is wanted; no such field; this can't stand here; no such file.
#[derive(Clone, Copy, PartialEq, Eq, Debug)]
pub enum Fault {
    NotUnderstood = 1,
    Unknown,
    Several,
    DeclaredBefore,
    OtherType,
    OtherCount,
    NoField,
    Misplaced,
    NoFile,
}

impl Fault {
    // The fault of a number, if it is one.
    pub fn from_number(n: u32) -> Option<Fault>
        ensures { FaultSays n result }
    {
        match n {
            1 => Some(Fault::NotUnderstood),
            2 => Some(Fault::Unknown),
            3 => Some(Fault::Several),
            4 => Some(Fault::DeclaredBefore),
            5 => Some(Fault::OtherType),
            6 => Some(Fault::OtherCount),
            7 => Some(Fault::NoField),
            8 => Some(Fault::Misplaced),
            9 => Some(Fault::NoFile),
            _ => None,
        }
    }
}

impl From<Fault> for u32 {
    ghost from_gives = { λ f n. n ≡ fault_number f };

    fn from(fault: Fault) -> u32 {
        fault as u32
    }
}
