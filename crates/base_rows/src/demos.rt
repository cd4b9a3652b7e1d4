//! Demos of one box and of two, by hand.
use demo_text::{demo_index, demo_local, demo_method, demo_text};
use std::alloc::Global;
use std::test::Fail;

const CLASSES: &str = "\
class Box {
    java.lang.Object v;
}
class Item { }
class Demo {
    static void put(Box, java.lang.Object) {
        Box b;
        java.lang.Object o;
        b := @parameter0: Box;
        o := @parameter1: java.lang.Object;
        b.<Box: java.lang.Object v> = o;
        return;
    }
    static java.lang.Object get(Box) {
        Box b;
        java.lang.Object o;
        b := @parameter0: Box;
        o = b.<Box: java.lang.Object v>;
        return o;
    }
";

const ONE: &str = "    static void main(java.lang.String[]) {
        Box b0;
        java.lang.Object o0, x0;
        b0 = new Box;
        o0 = new Item;
        staticinvoke <Demo: void put(Box,java.lang.Object)>(b0, o0);
        x0 = staticinvoke <Demo: java.lang.Object get(Box)>(b0);
        return;
    }
}
";

const TWO: &str = "    static void main(java.lang.String[]) {
        Box b0;
        java.lang.Object o0, x0;
        Box b1;
        java.lang.Object o1, x1;
        b0 = new Box;
        o0 = new Item;
        staticinvoke <Demo: void put(Box,java.lang.Object)>(b0, o0);
        x0 = staticinvoke <Demo: java.lang.Object get(Box)>(b0);
        b1 = new Box;
        o1 = new Item;
        staticinvoke <Demo: void put(Box,java.lang.Object)>(b1, o1);
        x1 = staticinvoke <Demo: java.lang.Object get(Box)>(b1);
        return;
    }
}
";

const NONE: &str = "    static void main(java.lang.String[]) {
        return;
    }
}
";

// Whether the text of a demo is these two, one behind the other.
fn is_text(alloc: Global, count: u32, classes: &str, rest: &str) -> Result<bool, Fail> {
    let expected = format!(in alloc; "{classes}{rest}")?;
    let text = demo_text(alloc, count)?;
    Ok(text.as_str() == expected.as_str())
}

#[test]
fn spells_demos(rt: HostRuntime) -> Result<(), Fail> {
    for (count, main) in [(0, NONE), (1, ONE), (2, TWO)] {
        assert!(rt;
            is_text(rt.alloc(), count, CLASSES, main)?,
            "of {count} boxes"
        );
    }
    Ok(())
}

#[test]
fn asks_the_last_box(rt: HostRuntime) -> Result<(), Fail> {
    assert_eq!(rt; demo_method(), "<Demo: void main(java.lang.String[])>");
    for (count, local, index) in [(1, "x0", 4), (2, "x1", 8), (400, "x399", 1600)] {
        let name = demo_local(rt.alloc(), count)?;
        assert_eq!(rt; name.as_str(), local);
        assert_eq!(rt; demo_index(count), index);
    }
    Ok(())
}
