// The elements of a listing with their weights, and its tree.
use adaptor::Way;
use panel::{RATE, UNIT};
use reader::Listing;
use std::alloc::{AllocError, Global};
use tree::{ListingTree, Step};
use weights::Scale;

pub fn print_elements(rt: &HostRuntime, text: &[u8], listing: &Listing) -> anyhow::Result<()> {
    let Some(scale) = Scale::new(RATE, UNIT) else {
        return Ok(());
    };
    for element in listing.elements.as_slice() {
        let name = element.name.text(rt.alloc(), text)?;
        println!(rt;
            "{name:<8} {:<9} {:>9} {:<12} weight {:>3}",
            element.kind.word(),
            element.value.get(),
            element.kind.unit(),
            scale.weight_of(element.kind, element.value)
        )?;
    }
    Ok(())
}

// The name of the element that stands at this index of the listing.
// Kept: `listing` has its like over nodes: one `get` of other records.
fn element_name(
    heap: Global,
    text: &[u8],
    listing: &Listing,
    index: u32,
) -> Result<String, AllocError> {
    match listing.elements.as_slice().get(index as usize) {
        Some(found) => found.name.text(heap, text),
        None => Ok(String::new(heap)),
    }
}

fn word_of(way: Way) -> &'static str {
    match way {
        Way::Series => " in series with ",
        Way::Parallel => " parallel to ",
    }
}

pub fn print_tree(
    rt: &HostRuntime,
    text: &[u8],
    listing: &Listing,
    tree: &ListingTree,
) -> anyhow::Result<()> {
    let steps = tree.shape(rt.alloc())?;
    print!(rt; "tree     ")?;
    for step in &steps {
        match *step {
            Step::Begin => print!(rt; "(")?,
            Step::End => print!(rt; ")")?,
            Step::By(way) => print!(rt; "{}", word_of(way))?,
            Step::One(element) => {
                let name = element_name(rt.alloc(), text, listing, element.index)?;
                print!(rt; "{name}")?;
            }
        }
    }
    println!(rt; "")?;
    Ok(())
}
