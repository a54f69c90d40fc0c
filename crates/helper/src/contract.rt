// The six calls of a helper, as a trait, and what they say.
ghost use Rattle.std.specs.Prelude.{◌≡◌, ℕ};
ghost use Rattle.semantics.specs.Names.{Texts};
ghost use Rattle.semantics.specs.Answers.{faults, type_of, where_is};
ghost use Rattle.helper.specs.Says.{OpenSays, EditSays, CloseSays, AskSays};

// What came of a change: it is made; or there is no such file, no such place in it, or too few words are lent for the texts as they
// would be, and then they are as before. The name and its cases are given, and so are those of Answer, hence neither is a Result.
#[derive(Clone, Copy, PartialEq, Eq, Debug)]
pub enum Changed {
    Made,
    NoFile,
    NoPlace,
    NoRoom,
}

// How many words of answer; or why there is none, OutFull with how many there would be.
#[derive(Clone, Copy, PartialEq, Eq, Debug)]
pub enum Answer {
    Words(usize),
    Missing,
    OutFull(usize),
}

// 'texts' are the files in the order in which they were opened, 'words' how many words are lent, and 'fit' says that they are in order.
pub trait Helper {
    ghost texts: { Self → Texts };

    ghost words: { Self → ℕ };

    ghost fit: { Self → Type 0 };

    // From now on the file has that text. One that wasn't open comes last.
    fn open(&mut self, name: &[u8], text: &[u8]) -> Changed
        requires { fit self.old }
        ensures fits { fit self.new }
        ensures says { OpenSays (texts self.old) (words self.old) name.now text.now (texts self.new) result }
        ensures lent { words self.new ≡ words self.old };

    // The bytes of a file from a place to another are replaced.
    fn edit(&mut self, name: &[u8], from: usize, to: usize, new: &[u8]) -> Changed
        requires { fit self.old }
        ensures fits { fit self.new }
        ensures says { EditSays (texts self.old) (words self.old) name.now from to new.now (texts self.new) result }
        ensures lent { words self.new ≡ words self.old };

    // The file is gone; whether there was one.
    fn close(&mut self, name: &[u8]) -> bool
        requires { fit self.old }
        ensures fits { fit self.new }
        ensures says { CloseSays (texts self.old) name.now (texts self.new) result }
        ensures lent { words self.new ≡ words self.old };

    // What is wrong in a file: from, behind and the fault's number for each, in the order of lines.
    fn faults(&mut self, name: &[u8], out: &mut [u64]) -> Answer
        requires { fit self.old }
        ensures fits { fit self.new }
        ensures says { AskSays (faults (texts self.old) name.now) (texts self.old) out.old out.new (texts self.new) result }
        ensures lent { words self.new ≡ words self.old };

    // The type of the smallest expression around a place.
    fn type_at(&mut self, name: &[u8], place: usize, out: &mut [u64]) -> Answer
        requires { fit self.old }
        ensures fits { fit self.new }
        ensures says { AskSays (type_of (texts self.old) name.now place) (texts self.old) out.old out.new (texts self.new) result }
        ensures lent { words self.new ≡ words self.old };

    // Where the name at a place is declared or bound.
    fn declared_at(&mut self, name: &[u8], place: usize, out: &mut [u64]) -> Answer
        requires { fit self.old }
        ensures fits { fit self.new }
        ensures says { AskSays (where_is (texts self.old) name.now place) (texts self.old) out.old out.new (texts self.new) result }
        ensures lent { words self.new ≡ words self.old };
}
