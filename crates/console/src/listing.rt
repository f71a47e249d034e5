// The list of a book's products: each is read by its must set, its group count and its groups, one reading after the other.
use crate::weights::Worth;
use stages::{Answer, Outcome, Reading};
use std::io;

// What a list keeps between its readings: how many groups the product that is being listed has. So no step of the history is
// spent on finding that it has no further group.
#[derive(Clone, Copy)]
pub(crate) struct Listing {
    groups: usize,
}

impl Listing {
    pub(crate) fn new() -> Listing {
        Listing { groups: 0 }
    }

    // Prints what was read, and says what is to be read next. The list ends where there is no such product.
    pub(crate) fn go_on(
        &mut self,
        rt: &HostRuntime,
        read: &Reading<Worth>,
        outcome: Outcome<Worth>,
    ) -> io::Result<Option<Reading<Worth>>> {
        match (read, outcome) {
            (Reading::Must(product), Ok(Answer::Parts(set))) => {
                print!(rt; "product {product}: {set}")?;
                Ok(Some(Reading::GroupCount(*product)))
            }
            (Reading::GroupCount(product), Ok(Answer::Number(0))) => next_product(rt, *product),
            (Reading::GroupCount(product), Ok(Answer::Number(groups))) => {
                self.groups = groups;
                rt.print(" lack")?;
                Ok(Some(Reading::Group(*product, 0)))
            }
            (Reading::Group(product, group), Ok(Answer::Parts(set))) => {
                print!(rt; " {set}")?;
                let next = group.saturating_add(1);
                if next < self.groups {
                    return Ok(Some(Reading::Group(*product, next)));
                }
                next_product(rt, *product)
            }
            _ => Ok(None),
        }
    }
}

fn next_product(rt: &HostRuntime, product: usize) -> io::Result<Option<Reading<Worth>>> {
    println!(rt)?;
    Ok(Some(Reading::Must(product.saturating_add(1))))
}
