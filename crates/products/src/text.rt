// A product in print: `{0,3,4} lack {1} {2}`, and without groups `{0,1}`.
use crate::kind::ProductKind;
use std::fmt;

// Prints the product that it holds.
#[derive(Clone, Copy)]
pub struct Printed<K>(pub K);

impl<K: ProductKind> fmt::Display for Printed<K> {
    fn fmt<W: fmt::Write>(&self, f: &mut fmt::Formatter<W>) -> fmt::Result {
        let must = self.0.must();
        write!(f, "{must}")?;
        if self.0.group_count() > 0 {
            f.write_str(" lack")?;
        }
        for group in self.0.groups() {
            write!(f, " {group}")?;
        }
        Ok(())
    }
}
