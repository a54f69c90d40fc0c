// The checker's two samples: a lookup that knows of every name that it means nothing, and one that knows nothing yet.
// The first two tests stand in the checker too; here the same is tried from outside of its crate, by its public names.
ghost use Rattle.std.specs.Prelude.{◌≡◌, length};

#[cfg(test)]
mod tests {
    use checker::check::{Stop, check};
    use checker::lookup::{Lookup, SigId, Type, TypeId, Want};
    use checker::packed::TypeWord;
    use checker::rows::Bounds;
    use checker::samples::{Blank, Empty};
    use parser::code::{Op, Span, emit};
    use std::test::Fail;

    // The line a(b) and its code.
    fn write(words: &mut [u32])
        requires { length words.old ≡ 104 }
    {
        words[0] = 97;
        words[1] = 40;
        words[2] = 98;
        words[3] = 41;
        emit(words, 4, 0, Op::Call(Span { from: 0, to: 1 }, 1));
        emit(words, 4, 1, Op::Name(Span { from: 2, to: 3 }));
        emit(words, 4, 2, Op::Arg);
        emit(words, 4, 3, Op::End(4));
    }

    // Two names that mean nothing, the call's first.
    #[test]
    fn unknown_names_are_blamed(rt: HostRuntime) {
        let mut words = [0; 104];
        write(&mut words);
        match check(
            &Empty,
            &mut words,
            Bounds {
                len: 4,
                base: 4,
                count: 4,
            },
        ) {
            Ok(n) => assert_eq!(rt; n, 2),
            Err(_) => assert_eq!(rt; 0, 1),
        }
        assert_eq!(rt; words[24], 0);
        assert_eq!(rt; words[25], 0);
        assert_eq!(rt; words[26], 1);
        assert_eq!(rt; words[27], 2);
        assert_eq!(rt; words[28], 0);
        assert_eq!(rt; words[29], 2);
        assert_eq!(rt; words[30], 3);
        assert_eq!(rt; words[31], 2);
    }

    #[test]
    fn the_first_name_has_to_be_known(rt: HostRuntime) -> Result<(), Fail> {
        let mut words = [0; 104];
        write(&mut words);
        match check(
            &Blank,
            &mut words,
            Bounds {
                len: 4,
                base: 4,
                count: 4,
            },
        ) {
            Err(Stop::Needs(Want::Here(s))) => {
                assert_eq!(rt; s.to, 1);
                Ok(())
            },
            _ => {
                assert_eq!(rt; 0, 1);
                Ok(())
            },
        }
    }

    #[test]
    fn a_type_is_one_word(rt: HostRuntime) {
        assert_eq!(rt; TypeWord::pack(None), TypeWord(0));
        assert_eq!(rt; TypeWord::pack(Some(Type::Num)), TypeWord(1));
        assert_eq!(rt; TypeWord::pack(Some(Type::Bool)), TypeWord(2));
        assert_eq!(rt; TypeWord::pack(Some(Type::Of(TypeId(4)))), TypeWord(7));
        assert_eq!(rt; TypeWord(0).unpack(), None);
        assert_eq!(rt; TypeWord(1).unpack(), Some(Type::Num));
        assert_eq!(rt; TypeWord(2).unpack(), Some(Type::Bool));
        assert_eq!(rt; TypeWord(7).unpack(), Some(Type::Of(TypeId(4))));
    }

    #[test]
    fn a_packed_lookup_gives_words(rt: HostRuntime) {
        let words = [0; 4];
        let b = Bounds {
            len: 4,
            base: 4,
            count: 0,
        };
        let name = Span { from: 0, to: 1 };
        assert_eq!(rt;
            TypeWord::pack(Empty.result(&words, b, SigId(0))),
            TypeWord(3)
        );
        assert_eq!(rt;
            TypeWord::pack(Empty.slot(&words, b, SigId(0), 0)),
            TypeWord(0)
        );
        assert_eq!(rt; Empty.field(&words, b, SigId(0), name), None);
    }
}
