// A set of parts in print: `{0,3,4}`.
use super::PartSet;
use std::fmt;

impl fmt::Display for PartSet {
    fn fmt<W: fmt::Write>(&self, f: &mut fmt::Formatter<W>) -> fmt::Result {
        f.write_str("{")?;
        let mut parts = self.into_iter();
        if let Some(first) = parts.next() {
            write!(f, "{}", first.index)?;
        }
        for part in parts {
            write!(f, ",{}", part.index)?;
        }
        f.write_str("}")
    }
}
