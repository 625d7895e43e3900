//! Laws of the definitions of framing and of attributes. Each is the contract of a function that
//! does nothing.

ghost use Rattle.std.specs.Prelude.{◌≡◌, ◌⊎◌, ◌≤◌, ◌*◌, ◌/◌, [], ◌++◌, All, length, List, ℕ, Some};
ghost use Rattle.std.specs.List.{concat};
ghost use Rattle.floor_wire.specs.Header.{header_bytes};
ghost use Rattle.floor_wire.specs.Message.{Divides, IsMessage, messages, rest};
ghost use Rattle.floor_wire.specs.Attributes.{Attributes};
ghost use Rattle.floor_wire.specs.Spelling.{Spells, IsWritable, canon, cleared};
ghost use Rattle.floor_wire.specs.Spelled.{spelled};
ghost use Rattle.floor_wire.specs.Types.{FormatsAreOfTable};
ghost use Rattle.floor_wire.specs.Bytes.{IsBytes};
ghost use Rattle.floor_wire.specs.Fault.{HasFault};
ghost use Rattle.floor_wire.specs.FirstFault.{IsFirstFault};
ghost use Rattle.floor_wire.specs.declared.fault.Cause.{Cause};

/// A stream divides into messages and a rest, and in one way only.
pub fn a_stream_divides_in_one_way()
    ensures divides { (s : List ℕ) → Divides s (messages s) (rest s) }
    ensures only { (s : List ℕ) (ms : List (List ℕ)) (more : List ℕ) → Divides s ms more
        → (ms ≡ messages s) × (more ≡ rest s) }
{}

/// The messages of a stream are those of its front, and then those of what is left of the front
/// with all that follows.
pub fn pieces_add_up()
    ensures messages { (s t : List ℕ) → messages (s ++ t) ≡ messages s ++ messages (rest s ++ t) }
    ensures rest { (s t : List ℕ) → rest (s ++ t) ≡ rest (rest s ++ t) }
{}

/// Messages at the front of a stream are its first, and what follows them has its other messages
/// and its rest.
pub fn messages_at_the_front_come_first()
    ensures messages { (ms : List (List ℕ)) (t : List ℕ) → All IsMessage ms
        → messages (concat ms ++ t) ≡ ms ++ messages t }
    ensures rest { (ms : List (List ℕ)) (t : List ℕ) → All IsMessage ms
        → rest (concat ms ++ t) ≡ rest t }
{}

/// What follows the messages of a stream holds none, and what holds none is its own rest.
pub fn a_rest_holds_no_message()
    ensures none { (s : List ℕ) → messages (rest s) ≡ [] }
    ensures whole { (s : List ℕ) → messages s ≡ [] → rest s ≡ s }
{}

/// Each type of attribute has the format that the table of the RFC gives it (section 5.2).
pub fn formats_are_those_of_the_table()
    ensures { FormatsAreOfTable }
{}

/// Bytes spell at most one list of attributes.
pub fn one_list_is_spelled()
    ensures { (a b : Attributes) (s : List ℕ) → Spells a s → Spells b s → a ≡ b }
{}

/// What a slice of bytes holds is from 0 to 255 each, as its type says.
pub fn a_slice_is_of_bytes(slice: &[u8])
    ensures { IsBytes slice.now }
{}

/// Bytes spell attributes or have a fault.
pub fn bytes_are_spelled_or_faulty()
    ensures { (s : List ℕ) → IsBytes s
        → ((a : Attributes) × Spells a s) ⊎ ((at : ℕ) × (cause : Cause) × HasFault s at cause) }
{}

/// Bytes that spell attributes have no fault, and no bytes have two.
pub fn a_fault_is_the_only_one()
    ensures none { (a : Attributes) (s : List ℕ) (at : ℕ) (cause : Cause)
        → HasFault s at cause → Spells a s → ⊥ }
    ensures only { (s : List ℕ) (x y : ℕ) (c d : Cause)
        → HasFault s x c → HasFault s y d → (x ≡ y) × (c ≡ d) }
{}

/// The fault of bytes is that of the attribute with the lowest offset that has one itself.
pub fn the_fault_is_the_first()
    ensures first { (s : List ℕ) (at : ℕ) (cause : Cause) → HasFault s at cause
        → IsFirstFault s at cause }
    ensures fault { (s : List ℕ) (at : ℕ) (cause : Cause) → IsBytes s
        → IsFirstFault s at cause → HasFault s at cause }
{}

/// What is written spells the attributes, with M clear at the types 1 to 18.
pub fn what_is_written_is_spelled()
    ensures { (a : Attributes) → IsWritable a → Spells (cleared a) (canon a) }
{}

/// What is written is read again, with M clear at the types 1 to 18.
pub fn what_is_written_is_read()
    ensures { (a : Attributes) → IsWritable a → spelled (canon a) ≡ Some (cleared a) }
{}

/// What bytes spell can be written, in as many bytes.
pub fn what_is_spelled_is_writable()
    ensures writable { (a : Attributes) (s : List ℕ) → IsBytes s → Spells a s → IsWritable a }
    ensures length { (a : Attributes) (s : List ℕ) → Spells a s → length (canon a) ≡ length s }
{}

/// The attributes that are computed of bytes are those that the bytes spell.
pub fn what_is_computed_is_spelled()
    ensures found { (a : Attributes) (s : List ℕ) → Spells a s → spelled s ≡ Some a }
    ensures spelled { (a : Attributes) (s : List ℕ) → IsBytes s → spelled s ≡ Some a → Spells a s }
{}

/// What is written behind a header that announces it makes a message with it, as far as a Payload
/// Length goes.
pub fn what_is_written_is_a_message()
    ensures { (primitive conference transaction user : ℕ) (a : Attributes)
        → length (canon a) ≤ 4 * 65535
        → IsMessage
        (header_bytes primitive (length (canon a) / 4) conference transaction user ++ canon a) }
{}
