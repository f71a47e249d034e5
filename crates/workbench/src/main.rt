// The workbench: works through the bridge in both kinds of product and prints what comes of each path.
#![tactic(auto)]

mod bridge;
mod history;
mod report;

use parts::PartSet;
use products::{ProductKind, new_products};

fn main(rt: HostRuntime) -> anyhow::Result<()> {
    run(&rt)
}

fn run(rt: &HostRuntime) -> anyhow::Result<()> {
    let count = bridge::part_count()?;
    let parts = count.count();
    let paths = bridge::paths()?;
    let entered = paths.len();
    println!(rt; "the bridge: {parts} parts, {entered} paths")?;
    work_through::<single::SingleProduct>(rt, "single", &paths)?;
    history::run::<single::SingleProduct>(rt, count, &paths)?;
    work_through::<group::GroupProduct>(rt, "group", &paths)?;
    history::run::<group::GroupProduct>(rt, count, &paths)
}

// Each path in turn brings its new products; at the end stand all of them.
fn work_through<K: ProductKind>(
    rt: &HostRuntime,
    name: &str,
    paths: &[PartSet],
) -> anyhow::Result<()> {
    let letter = K::LETTER;
    println!(rt; "{name} kind, letter {letter}")?;
    let mut products = Vec::new(rt.alloc());
    for (k, path) in paths.iter().enumerate() {
        let earlier = &paths[0..k];
        report::print_path(rt, *path, earlier)?;
        let new = new_products::<K>(rt.alloc(), earlier, *path)?;
        report::print_products(rt, products.len(), &new)?;
        products.extend_from_slice(&new)?;
    }
    println!(rt; "all products")?;
    report::print_products(rt, 0, &products)?;
    Ok(())
}
