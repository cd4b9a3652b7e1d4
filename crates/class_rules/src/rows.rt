/// What stands behind a method's head.
#[derive(Clone, Copy, Debug, PartialEq, Eq)]
pub enum BodyKind {
    /// Statements.
    Plain,
    /// Code that isn't given. A look-up finds such a method.
    Native,
    /// Nothing, as for an abstract method. A look-up along parents goes on past such a method; in an
    /// interface it hides what the interfaces above have.
    Missing,
}

impl BodyKind {
    ghost use Rattle.std.specs.Prelude.{◌≡◌};
    ghost use Rattle.class_rules.specs.Bodies.{has_body};

    /// Whether a look-up finds a method of this kind.
    pub fn has_body(self) -> bool
        ensures { result ≡ has_body self }
    {
        match self {
            BodyKind::Plain => true,
            BodyKind::Native => true,
            BodyKind::Missing => false,
        }
    }
}

/// A class or an interface. Its number is its index in the list of classes, from 0.
#[derive(Clone, Copy, Debug, PartialEq, Eq)]
pub struct ClassRow {
    /// The number of the parent.
    pub parent: Option<u32>,
    /// Whether it is an interface, which default methods alone may come from. Look-ups along parents,
    /// and of fields, don't depend on it.
    pub interface: bool,
}

/// A method of a class.
#[derive(Clone, Copy, Debug, PartialEq, Eq)]
pub struct MethodRow {
    /// The number of the class.
    pub class: u32,
    /// A number for name, types and the static flag together. Any number may stand here.
    pub key: u32,
    pub body: BodyKind,
}

/// A field of a class.
#[derive(Clone, Copy, Debug, PartialEq, Eq)]
pub struct FieldRow {
    /// The number of the class.
    pub class: u32,
    /// A number for name, type and the static flag together. Any number may stand here.
    pub key: u32,
}
