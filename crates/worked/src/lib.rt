// The worked lines of docs/LANGUAGE.md as tests: what is understood, and where the others go wrong.
#![tactic(auto)]

#[cfg(test)]
mod tests {
    use parser::code::Span;
    use std::alloc::{AllocError, Global};
    use std::test::Fail;
    use syntax::read::{Refusal, read_line, room};

    // Reads a line in a row with so many words behind it: how many operations it is, or why it is none.
    fn read_in(
        heap: Global,
        line: &[u8],
        behind: usize,
    ) -> Result<Result<usize, Refusal>, AllocError> {
        let mut row: Vec<u32> = line.iter().map(|b| u32::from(*b)).collect(heap)?;
        row.resize(line.len().saturating_add(behind), 0)?;
        Ok(read_line(&mut row[..], line.len(), line.len()))
    }

    fn read(heap: Global, line: &[u8]) -> Result<Result<usize, Refusal>, AllocError> {
        read_in(heap, line, room(line.len()))
    }

    // What is read of a line that isn't understood.
    fn wrong(from: u32, to: u32) -> Result<usize, Refusal> {
        Err(Refusal::Wrong(Span { from, to }))
    }

    #[test]
    fn the_sample_files_are_understood(rt: HostRuntime) -> Result<(), Fail> {
        let heap = rt.alloc();
        assert_eq!(rt; read(heap, b"kind port = Vik, Sund, Holm")?, Ok(4));
        assert_eq!(rt;
            read(heap, b"rec ticket = start port, end port, age num")?,
            Ok(4)
        );
        assert_eq!(rt; read(heap, b"use ports")?, Ok(1));
        assert_eq!(rt; read(heap, b"# fares")?, Ok(0));
        assert_eq!(rt;
            read(
                heap,
                b"def base(p port) num = if p == Vik then 40 else 25 + 3 * 5",
            )?,
            Ok(15)
        );
        assert_eq!(rt;
            read(
                heap,
                b"def fare(t ticket) num = let b = base(t.start) in if t.age < 12 then 0 else b",
            )?,
            Ok(19)
        );
        Ok(())
    }

    #[test]
    fn what_is_missing_is_marked_behind_the_last_piece(rt: HostRuntime) -> Result<(), Fail> {
        let heap = rt.alloc();
        assert_eq!(rt; read(heap, b"def f() num = 1 +")?, wrong(17, 17));
        assert_eq!(rt; read(heap, b"def f() num = 1 +   # note")?, wrong(17, 17));
        assert_eq!(rt; read(heap, b"kind k =")?, wrong(8, 8));
        Ok(())
    }

    #[test]
    fn the_first_piece_that_cannot_be_there_is_marked(rt: HostRuntime) -> Result<(), Fail> {
        let heap = rt.alloc();
        assert_eq!(rt; read(heap, b"kind k = A B")?, wrong(11, 12));
        assert_eq!(rt; read(heap, b"use 1x")?, wrong(4, 6));
        assert_eq!(rt; read(heap, b"def f() num = 1a")?, wrong(14, 16));
        assert_eq!(rt; read(heap, b"def f() num = 1 < 2 < 3")?, wrong(20, 21));
        assert_eq!(rt; read(heap, b"1 + 2")?, wrong(0, 1));
        Ok(())
    }

    #[test]
    fn one_word_too_few_is_refused(rt: HostRuntime) -> Result<(), Fail> {
        let heap = rt.alloc();
        let line = b"use ports";
        assert_eq!(rt; read_in(heap, line, room(9))?, Ok(1));
        assert_eq!(rt;
            read_in(heap, line, room(9).saturating_sub(1))?,
            Err(Refusal::NoRoom)
        );
        assert_eq!(rt; read_in(heap, line, 0)?, Err(Refusal::NoRoom));
        Ok(())
    }
}
