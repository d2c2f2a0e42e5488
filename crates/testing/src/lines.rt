// Numbers as they are printed: in decimal with a space before each.
use std::fmt;

#[derive(Clone, Copy)]
pub struct Row<'a>(pub &'a [u64]);

impl fmt::Display for Row<'_> {
    fn fmt<W: fmt::Write>(&self, f: &mut fmt::Formatter<W>) -> fmt::Result {
        for n in self.0 {
            write!(f, " {n}")?;
        }
        Ok(())
    }
}
