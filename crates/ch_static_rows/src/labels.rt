//! Labels and their places.

use ch_base::Text;
use ch_ident::Name;
use ch_static::{Closure, Table, Unlabelled};
use std::alloc::Global;
use std::test::Fail;

fn closure(alloc: Global, label: &[u8]) -> Result<Closure, Fail> {
    let label = Name::new(alloc, label)?;
    let args = Text::new(alloc);
    Ok(Closure { label, args })
}

fn add(alloc: Global, table: &mut Table, label: &[u8]) -> Result<bool, Fail> {
    let label = Name::new(alloc, label)?;
    let added = table.add(&label)?;
    Ok(added)
}

fn place(alloc: Global, table: &Table, label: &[u8]) -> Result<Option<usize>, Fail> {
    let closure = closure(alloc, label)?;
    match table.resolve(&closure) {
        Ok(place) => Ok(Some(place)),
        Err(Unlabelled) => Ok(None),
    }
}

#[test]
fn a_label_is_added_once(rt: HostRuntime) -> Result<(), Fail> {
    let mut table = Table::new(rt.alloc());
    assert!(rt; add(rt.alloc(), &mut table, b"w")?);
    assert!(rt; !add(rt.alloc(), &mut table, b"w")?);
    assert_eq!(rt; place(rt.alloc(), &table, b"v")?, None);
    Ok(())
}

#[test]
fn labels_have_places(rt: HostRuntime) -> Result<(), Fail> {
    let mut table = Table::new(rt.alloc());
    add(rt.alloc(), &mut table, b"w")?;
    add(rt.alloc(), &mut table, b"w")?;
    add(rt.alloc(), &mut table, b"v")?;
    assert_eq!(rt; place(rt.alloc(), &table, b"w")?, Some(0));
    assert_eq!(rt; place(rt.alloc(), &table, b"v")?, Some(1));
    assert_eq!(rt; place(rt.alloc(), &table, b"u")?, None);
    Ok(())
}
