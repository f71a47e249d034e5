// What the workbench prints of paths and products.
use parts::PartSet;
use products::{Printed, ProductKind};
use std::io;

// The path, and the earlier ones that are cut off.
pub(crate) fn print_path(rt: &HostRuntime, path: PartSet, earlier: &[PartSet]) -> io::Result<()> {
    print!(rt; "path {path}")?;
    if !earlier.is_empty() {
        print!(rt; " without")?;
    }
    for cut_off in earlier {
        print!(rt; " {cut_off}")?;
    }
    println!(rt)
}

// One line for each product, numbered from `first` on.
pub(crate) fn print_products<K: ProductKind>(
    rt: &HostRuntime,
    first: usize,
    products: &[K],
) -> io::Result<()> {
    for (k, product) in products.iter().enumerate() {
        let number = first.saturating_add(k);
        let product = Printed(*product);
        println!(rt; "product {number}: {product}")?;
    }
    Ok(())
}
