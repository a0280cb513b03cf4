use elements::error::LoadError;
use heap::blank::{blank_book, blank_mesh};
use std::test::Fail;

// Books and meshes on the heap, with one place in each list.
#[test]
fn one_place(rt: HostRuntime) -> Result<(), Fail> {
    let mut book = blank_book(rt.alloc(), 1)?;
    assert_eq!(rt; book.position(0.0, 0.0, 0.0), Ok(()));
    assert_eq!(rt; book.position(0.0, 0.0, 0.0), Err(LoadError::BookFull));
    let mesh = blank_mesh(rt.alloc(), 1)?;
    assert_eq!(rt; mesh.material_id(), None);
    let lists = mesh.lists();
    assert_eq!(rt; lists.positions.len(), 0);
    assert_eq!(rt; lists.remap.room(), 1);
    Ok(())
}
