//! What a heap keeps.
use link_sites::Site;
use std::test::Fail;
use step_heap::Heap;
use step_rules::Value;

// A field has the value that was written last, an element each that was; another field has null.
#[test]
fn keeps_writes(rt: HostRuntime) -> Result<(), Fail> {
    let alloc = rt.alloc();
    let mut heap = Heap::new(alloc);
    heap.push(Site::Text(4), 9)?;
    heap.write(alloc, 0, 3, Value::Number)?;
    heap.write(alloc, 0, 3, Value::Object(0))?;
    heap.write(alloc, 0, 0, Value::Number)?;
    heap.write(alloc, 0, 0, Value::Null)?;
    assert_eq!(rt; heap.len(), 1);
    let object = heap.object(0);
    assert!(rt; object.site() == Site::Text(4));
    assert_eq!(rt; object.class(), 9);
    assert!(rt; object.field(3) == Value::Object(0));
    assert!(rt; object.field(5) == Value::Null);
    assert!(rt; object.cells() == [Value::Number, Value::Null].as_slice());
    Ok(())
}
