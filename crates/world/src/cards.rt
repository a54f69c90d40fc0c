// What is declared in the small world, by numbers.
ghost use Rattle.std.specs.Prelude.{◌≡◌, ◌≤◌, length};
ghost use Rattle.world.specs.World.{CardSays, CardNumbered, sig_of, type_sig};

use checker::lookup::{SigId, Type, TypeId};
use semantics::sort::Sort;
use std::fmt;

// A field or a parameter: its name, and its type if that is known.
#[derive(Clone, Copy, Debug)]
pub struct Slot {
    pub name: &'static str,
    pub ty: Option<Type>,
}

// Where it is declared, and under which name; its sort; its type, of a kind or a record itself; its fields or parameters.
#[derive(Clone, Copy, Debug)]
pub struct Card {
    pub file: &'static str,
    pub name: &'static str,
    pub sort: Sort,
    pub result: Option<Type>,
    pub slots: &'static [Slot],
}

// By its file and its name.
impl fmt::Display for Card {
    fn fmt<W: fmt::Write>(&self, f: &mut fmt::Formatter<W>) -> fmt::Result {
        write!(f, "{}.{}", self.file, self.name)
    }
}

const NUM: Option<Type> = Some(Type::Num);

const BOOL: Option<Type> = Some(Type::Bool);

// The types that are declared: port and ticket of ports, port2 and odd of x, port2 and hold of more, s of deep.
const PORT: Option<Type> = Some(Type::Of(TypeId(0)));

const TICKET: Option<Type> = Some(Type::Of(TypeId(1)));

const OWN: Option<Type> = Some(Type::Of(TypeId(2)));

const ODD: Option<Type> = Some(Type::Of(TypeId(3)));

const FAR: Option<Type> = Some(Type::Of(TypeId(4)));

const HOLD: Option<Type> = Some(Type::Of(TypeId(5)));

const DEEP: Option<Type> = Some(Type::Of(TypeId(6)));

macro_rules! card {
    ($file:literal, $name:literal, $sort:ident, $result:expr, [$(($slot:literal, $ty:expr)),*]) => {
        Card {
            file: $file,
            name: $name,
            sort: Sort::$sort,
            result: $result,
            slots: &[$(Slot { name: $slot, ty: $ty }),*],
        }
    };
}

// All that is declared: first what x declares, then what the files declare that x uses. A number is a place in it.
pub(crate) static CARDS: [Card; 16] = [
    card!("x", "base", Def, NUM, [("p", PORT)]),
    card!("x", "flag", Def, BOOL, []),
    card!("x", "port2", Kind, OWN, []),
    card!("x", "Mine", Constant, OWN, []),
    card!(
        "x",
        "odd",
        Record,
        ODD,
        [("bad", None), ("n", NUM), ("n", BOOL)]
    ),
    card!("x", "lost", Def, None, [("a", None)]),
    card!("x", "add", Def, NUM, [("a", NUM), ("b", NUM)]),
    card!("ports", "port", Kind, PORT, []),
    card!("ports", "Vik", Constant, PORT, []),
    card!(
        "ports",
        "ticket",
        Record,
        TICKET,
        [("start", PORT), ("end", PORT), ("age", NUM)]
    ),
    card!("more", "port2", Kind, FAR, []),
    card!("more", "Oslo", Constant, FAR, []),
    card!("more", "hold", Record, HOLD, [("v", DEEP), ("back", HOLD)]),
    card!("more", "k", Def, NUM, []),
    card!("more", "Lone", Constant, None, []),
    card!("deep", "s", Kind, DEEP, []),
];

// How many of them x declares, and how many can be named in x: the first ones.
pub(crate) const OWN_CARDS: usize = 7;

pub(crate) const NAMED_CARDS: usize = 15;

// Of what has this number: the last one, where no other has it.
pub fn card_of(sig: SigId) -> Card
    ensures says { CardSays result (sig_of sig.0) }
    ensures few { length result.slots.now ≤ 3 }
    ensures numbered { CardNumbered result }
{
    CARDS[(sig.0 as usize).min(CARDS.len() - 1)]
}

// What declares each type.
static TYPES: [SigId; 7] = [
    SigId(7),
    SigId(9),
    SigId(2),
    SigId(4),
    SigId(10),
    SigId(12),
    SigId(15),
];

// What a type is: the last one, where no other has its number.
pub fn type_sig(ty: TypeId) -> SigId
    ensures { result.0 ≡ type_sig ty.0 }
{
    TYPES[(ty.0 as usize).min(TYPES.len() - 1)]
}
