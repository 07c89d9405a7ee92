use crate::text::Text;
use std::alloc::Global;

/// The kind of the keys.
pub struct KeyKind;

/// The kind of the fields.
pub struct FieldKind;

/// The kind of the values.
pub struct ValueKind;

/// A key of the map: 0 to 65,535 bytes.
pub type Key<A = Global> = Text<KeyKind, A>;

/// A field within a key of the map: 0 to 65,535 bytes. A write that names no field is at the empty one.
pub type Field<A = Global> = Text<FieldKind, A>;

/// A value of the map: 0 to 65,535 bytes.
pub type Value<A = Global> = Text<ValueKind, A>;
