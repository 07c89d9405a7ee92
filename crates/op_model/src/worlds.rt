//! The laws of worlds of replicas.

ghost use Rattle.std.specs.Prelude.{◌≡◌, ◌≢◌, ◌↔◌, ◌++◌, ◌∷◌, [], ◌+◌, ◌≤◌, ◌==◌, ◌||◌, ℕ, List, false, length, Contains};
ghost use Rattle.dots.specs.declared.dot.Dot.{Dot};
ghost use Rattle.op_model.specs.Place.{Place};
ghost use Rattle.op_model.specs.State.{join, Same};
ghost use Rattle.op_model.specs.Operation.{Write, Operation, Wrote, NoReuse, IsPartOf, has, known};
ghost use Rattle.op_model.specs.Shown.{values, values_of_key, fields, keys, IsAscending};
ghost use Rattle.op_model.specs.Meaning.{MapState, greater, state, Stands, StandsWithin, HoldsField, HoldsKey};
ghost use Rattle.op_model.specs.Made.{put_at, erasure, remove_at, remove_field_at, clear_at, IsPutAt, IsRemoveAt, IsFieldRemoveAt, IsClearAt};
ghost use Rattle.op_model.specs.World.{AbstractEvent, Node, Put, Remove, RemoveField, Clear, Flush, Deliver, AbstractWorld, is_node, message, happens, after};
ghost use Rattle.op_model.specs.World.{makes, sends, learns};
ghost use Rattle.op_model.specs.World.{IsSound, Means, IsUntouched, replica_of};

/// No dot is ever used twice: after every list of events, whatever they are, all operations made have no reuse, and what
/// each replica has seen, holds outgoing, and each message carries, is part of them.
pub fn ids_are_fresh()
    ensures no_reuse { (events : List AbstractEvent) → NoReuse (after events).made }
    ensures sound { (events : List AbstractEvent) → IsSound (after events) }
    ensures seen { (events : List AbstractEvent) (name : ℕ) → NoReuse ((after events).seen name) }
{}

/// A live pair and a group that mean what a replica has seen and is to send mean it again after a put, where both were
/// joined with the delta of the operation made, at the set or at the live pair.
pub fn puts()
    ensures at_set { (events : List AbstractEvent) (name : ℕ) (p g d : MapState) (place : Place) (value : List ℕ) →
        Means p g (after events) name → Same d (state (put_at ((after events).seen name) name place value)) →
        Means (join greater p d) (join greater g d) (after (events ++ Put name place value ∷ [])) name }
    ensures at_pair { (events : List AbstractEvent) (name : ℕ) (p g d : MapState) (place : Place) (value : List ℕ) (w : Write) →
        Means p g (after events) name → IsPutAt p name place value w → Same d (state (Wrote w ∷ [])) →
        Means (join greater p d) (join greater g d) (after (events ++ Put name place value ∷ [])) name }
{}

/// The same after a remove of a key.
pub fn removes()
    ensures at_set { (events : List AbstractEvent) (name : ℕ) (p g d : MapState) (key : List ℕ) →
        Means p g (after events) name → Same d (state (remove_at ((after events).seen name) key)) →
        Means (join greater p d) (join greater g d) (after (events ++ Remove name key ∷ [])) name }
    ensures at_pair { (events : List AbstractEvent) (name : ℕ) (p g d : MapState) (key : List ℕ) (over : List Dot) →
        Means p g (after events) name → IsRemoveAt p key over → Same d (state (erasure over)) →
        Means (join greater p d) (join greater g d) (after (events ++ Remove name key ∷ [])) name }
{}

/// The same after a remove of a field.
pub fn field_removes()
    ensures at_set { (events : List AbstractEvent) (name : ℕ) (p g d : MapState) (place : Place) →
        Means p g (after events) name → Same d (state (remove_field_at ((after events).seen name) place)) →
        Means (join greater p d) (join greater g d) (after (events ++ RemoveField name place ∷ [])) name }
    ensures at_pair { (events : List AbstractEvent) (name : ℕ) (p g d : MapState) (place : Place) (over : List Dot) →
        Means p g (after events) name → IsFieldRemoveAt p place over → Same d (state (erasure over)) →
        Means (join greater p d) (join greater g d) (after (events ++ RemoveField name place ∷ [])) name }
{}

/// The same after a clear.
pub fn clears()
    ensures at_set { (events : List AbstractEvent) (name : ℕ) (p g d : MapState) →
        Means p g (after events) name → Same d (state (clear_at ((after events).seen name))) →
        Means (join greater p d) (join greater g d) (after (events ++ Clear name ∷ [])) name }
    ensures at_pair { (events : List AbstractEvent) (name : ℕ) (p g d : MapState) (over : List Dot) →
        Means p g (after events) name → IsClearAt p over → Same d (state (erasure over)) →
        Means (join greater p d) (join greater g d) (after (events ++ Clear name ∷ [])) name }
{}

/// The same after a delivery, where the live pair alone was joined with a pair that means what the message carries.
pub fn delivers()
    ensures { (events : List AbstractEvent) (name number : ℕ) (p g d : MapState) →
        Means p g (after events) name → Same d (state (message (after events).messages number)) →
        Means (join greater p d) g (after (events ++ Deliver number name ∷ [])) name }
{}

/// After a flush the live pair means the same, and an empty one means the group. A message was made exactly where
/// the group knew some dot, and carries what the group meant.
pub fn flushes()
    ensures pairs { (events : List AbstractEvent) (name : ℕ) (p g e : MapState) →
        Means p g (after events) name → Same e (state []) → Means p e (after (events ++ Flush name ∷ [])) name }
    ensures empty { (events : List AbstractEvent) (name : ℕ) (p g : MapState) → Means p g (after events) name →
        ((dot : Dot) → g.has dot ≡ false) ↔ ((after events).outgoing name ≡ []) }
    ensures message { (events : List AbstractEvent) (name : ℕ) → (after events).outgoing name ≢ [] →
        (after (events ++ Flush name ∷ [])).messages ≡ (after events).messages ++ (after events).outgoing name ∷ [] }
    ensures no_message { (events : List AbstractEvent) (name : ℕ) → (after events).outgoing name ≡ [] →
        (after (events ++ Flush name ∷ [])).messages ≡ (after events).messages }
{}

/// A new replica's name is there from then on, and what pairs of that name meant they mean: so empty ones, where nothing
/// happened under the name before.
pub fn nodes()
    ensures there { (events : List AbstractEvent) (name n : ℕ) →
        is_node (after (events ++ Node name ∷ [])) n ≡ (is_node (after events) n || name == n) }
    ensures pairs { (events : List AbstractEvent) (name n : ℕ) (p g : MapState) →
        Means p g (after events) n → Means p g (after (events ++ Node name ∷ [])) n }
{}

/// What a replica shows, of a live pair that means what it has seen: an ascending list of just the values that stand at a
/// place is `values` of what it has seen, one of just those that stand at any field of a key its `values_of_key`, one of
/// just the fields of a key at which something stands its `fields`, and one of just such keys its `keys`.
pub fn replicas_show()
    ensures values { (events : List AbstractEvent) (name : ℕ) (p g : MapState) (place : Place) (found : List (List ℕ)) →
        Means p g (after events) name → IsAscending found →
        ((value : List ℕ) → Contains found value ↔ Stands p place value) → found ≡ values ((after events).seen name) place }
    ensures values_of_key { (events : List AbstractEvent) (name : ℕ) (p g : MapState) (key : List ℕ) (found : List (List ℕ)) →
        Means p g (after events) name → IsAscending found →
        ((value : List ℕ) → Contains found value ↔ StandsWithin p key value) → found ≡ values_of_key ((after events).seen name) key }
    ensures fields { (events : List AbstractEvent) (name : ℕ) (p g : MapState) (key : List ℕ) (found : List (List ℕ)) →
        Means p g (after events) name → IsAscending found →
        ((field : List ℕ) → Contains found field ↔ HoldsField p key field) → found ≡ fields ((after events).seen name) key }
    ensures keys { (events : List AbstractEvent) (name : ℕ) (p g : MapState) (found : List (List ℕ)) →
        Means p g (after events) name → IsAscending found →
        ((key : List ℕ) → Contains found key ↔ HoldsKey p key) → found ≡ keys ((after events).seen name) }
    ensures known { (events : List AbstractEvent) (name : ℕ) (p g : MapState) (dot : Dot) →
        Means p g (after events) name → p.has dot ≡ has (known ((after events).seen name)) dot }
{}

/// Pairs that are the same as others mean the same: the pairs of a program are known by what stands in them.
pub fn same_pairs_mean_the_same()
    ensures { (w : AbstractWorld) (name : ℕ) (p q g h : MapState) →
        Same q p → Same h g → Means p g w name → Means q h w name }
{}

/// An event is one more step of the world, and leaves every replica but its own as it was.
pub fn events_elsewhere()
    ensures step { (events : List AbstractEvent) (e : AbstractEvent) → after (events ++ e ∷ []) ≡ happens (after events) e }
    ensures untouched { (events : List AbstractEvent) (e : AbstractEvent) (name : ℕ) → name ≢ replica_of e →
        IsUntouched (after events) (after (events ++ e ∷ [])) name }
    ensures pairs { (events : List AbstractEvent) (e : AbstractEvent) (name : ℕ) (p g : MapState) → name ≢ replica_of e →
        Means p g (after events) name → Means p g (after (events ++ e ∷ [])) name }
{}

/// The numbers of messages stay what they are: an added message has the next, and those before carry what they carried.
pub fn messages_stay()
    ensures kept { (messages more : List (List Operation)) (number : ℕ) → number ≤ length messages →
        message (messages ++ more) number ≡ message messages number }
    ensures added { (messages : List (List Operation)) (S : List Operation) →
        message (messages ++ S ∷ []) (length messages + 1) ≡ S }
{}

/// The moves of which events are made keep any world sound, so that other events may be made of them.
pub fn moves_are_sound()
    ensures makes_a_write { (w : AbstractWorld) (name : ℕ) (place : Place) (value : List ℕ) → IsSound w →
        IsSound (makes name (put_at (w.seen name) name place value) w) }
    ensures makes_an_erasure { (w : AbstractWorld) (name : ℕ) (over : List Dot) → IsSound w → IsSound (makes name (erasure over) w) }
    ensures sends { (w : AbstractWorld) (name : ℕ) → IsSound w → IsSound (sends name w) }
    ensures learns { (w : AbstractWorld) (name : ℕ) (more : List Operation) → IsSound w → IsPartOf more w.made → IsSound (learns name more w) }
{}

/// A replica that learns a set that is part of what was made, from a pair that means it: the joined pair means what it
/// has seen then. So for a delivery, and so for the end of a synchronisation.
pub fn learns_a_set()
    ensures { (w : AbstractWorld) (name : ℕ) (more : List Operation) (p g d : MapState) →
        IsSound w → IsPartOf more w.made → Means p g w name → Same d (state more) →
        Means (join greater p d) g (learns name more w) name }
{}
