// Items printed one after the other.
ghost use Rattle.std.specs.Prelude.{List, OnOk};
ghost use Rattle.std.specs.Fmt.{DisplaysOnOk};
ghost use Rattle.std.specs.Iterator.{IsFinite, Drains};
ghost use Rattle.text.specs.Joined.{joined};

use std::fmt;

// Writes the items of the iterator in their order, with nothing between them.
pub fn write_each<W: fmt::Write, I: Iterator>(f: &mut fmt::Formatter<W>, items: I) -> fmt::Result
where
    I: Drop,
    I::Item: fmt::Display + Drop,
    requires can { I.can_next items }
    requires ends { IsFinite (I.remaining items) }
    ensures { OnOk result ((xs : List I.Item) × Drains I.next_gives items xs
        × DisplaysOnOk W.write_str_gives f.old result (joined I.Item.output xs) f.new) }
{
    for item in items {
        write!(f, "{item}")?;
    }
    Ok(())
}

#[cfg(test)]
mod tests {
    use super::*;
    use std::test::Fail;

    #[derive(Clone, Copy)]
    struct Listed<'a>(&'a [u8]);

    impl fmt::Display for Listed<'_> {
        fn fmt<W: fmt::Write>(&self, f: &mut fmt::Formatter<W>) -> fmt::Result {
            write_each(f, self.0.iter())
        }
    }

    #[test]
    fn writes_each_in_its_order(rt: HostRuntime) -> Result<(), Fail> {
        let text = Listed(&[3, 14, 0]).to_string(rt.alloc())?;
        assert_eq!(rt; text.as_str(), "3140");
        let empty = Listed(&[]).to_string(rt.alloc())?;
        assert_eq!(rt; empty.as_str(), "");
        Ok(())
    }
}
