use super::owners::KeyOwners;

/// What the look-up of a field goes by: the owners of its key, and for each class its place.
#[derive(Clone, Copy)]
pub struct FieldOwners<'a> {
    pub key: u32,
    pub owners: KeyOwners<'a>,
    pub places: &'a [u32],
}
