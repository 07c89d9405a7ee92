//! Worked examples, by computation on the definitions, each with something wrong that is refused. They pin what the
//! definitions mean.

ghost use Rattle.std.specs.Prelude.{◌≡◌, ◌≢◌, ◌∷◌, [], true, false, Some, None, length, map};
ghost use Rattle.op_model.specs.Operation.{Erased, writes, observed, ids, has, known, NoReuse, IsSameSet};
ghost use Rattle.op_model.specs.Place.{place_of, plain};
ghost use Rattle.op_model.specs.Shown.{shown, values, values_of_key, fields, keys, size, ascending, IsAscending};
ghost use Rattle.op_model.specs.Meaning.{state, Stands, StandsWithin, HoldsField, HoldsKey};
ghost use Rattle.op_model.specs.Made.{dot_at, put_at, remove_at, remove_field_at, clear_at, removed_at, field_removed_at, cleared_at};
ghost use Rattle.op_model.specs.World.{after, message, is_node, is_message, Node, Flush};
ghost use Rattle.op_model.specs.Examples.{a, b, f, x, y, z, dot, wrote, wrote_field, overwritten, side_by_side, equal_values, removed, reused, two_fields, equal_fields};
ghost use Rattle.op_model.specs.Examples.{concurrent_puts, overwrite_both, remove_overtakes, remove_overtakes_put, remove_and_put, clear_and_group, fields_apart, field_removed, key_removed};

/// Two puts that have not seen each other are both kept, at both replicas.
pub fn concurrent_puts_are_both_kept()
    ensures first { values ((after concurrent_puts).seen 1) (plain a) ≡ x ∷ y ∷ [] }
    ensures second { values ((after concurrent_puts).seen 2) (plain a) ≡ x ∷ y ∷ [] }
    ensures not_one { values ((after concurrent_puts).seen 1) (plain a) ≢ y ∷ [] }
    ensures messages { map (λ S. ids (writes S)) (after concurrent_puts).messages ≡ (dot 1 1 ∷ []) ∷ (dot 2 1 ∷ []) ∷ [] }
{}

/// A put replaces every value that its replica has seen there, and its dot is the next of its name.
pub fn a_put_overwrites_both()
    ensures before { values ((after concurrent_puts).seen 1) (plain a) ≡ x ∷ y ∷ [] }
    ensures next { dot_at ((after concurrent_puts).seen 1) 1 ≡ dot 1 2 }
    ensures first { values ((after overwrite_both).seen 1) (plain a) ≡ z ∷ [] }
    ensures second { values ((after overwrite_both).seen 2) (plain a) ≡ z ∷ [] }
    ensures not_kept { values ((after overwrite_both).seen 2) (plain a) ≢ x ∷ y ∷ z ∷ [] }
    ensures nothing_to_send { (after overwrite_both).outgoing 2 ≡ [] }
{}

/// A put that comes after its own removal changes nothing, and stays known; a second remove observes nothing.
pub fn a_remove_overtakes_its_put()
    ensures removed_before { ids (shown ((after remove_overtakes).seen 2) (plain a)) ≡ [] }
    ensures known_before { has (known ((after remove_overtakes).seen 3)) (dot 1 1) ≡ true }
    ensures late { values ((after remove_overtakes_put).seen 3) (plain a) ≡ [] }
    ensures not_there { values ((after remove_overtakes_put).seen 3) (plain a) ≢ x ∷ [] }
    ensures still_known { has (known ((after remove_overtakes_put).seen 3)) (dot 1 1) ≡ true }
    ensures not_known { has (known ((after remove_overtakes_put).seen 3)) (dot 1 2) ≡ false }
    ensures first { values ((after remove_overtakes_put).seen 1) (plain a) ≡ [] }
    ensures nothing_removed { removed_at ((after remove_overtakes_put).seen 1) a ≡ 0 }
    ensures nothing_to_send { length (after remove_overtakes_put).messages ≡ 2 }
{}

/// A remove leaves what it has not seen, and a clear removes all that is shown; each group is one message.
pub fn a_clear_and_a_group()
    ensures kept { values ((after remove_and_put).seen 1) (plain a) ≡ y ∷ [] }
    ensures kept_too { values ((after remove_and_put).seen 2) (plain a) ≡ y ∷ [] }
    ensures not_both { values ((after remove_and_put).seen 2) (plain a) ≢ x ∷ y ∷ [] }
    ensures keys { keys ((after remove_and_put).seen 1) ≡ a ∷ [] }
    ensures size { size ((after remove_and_put).seen 1) ≡ 1 }
    ensures cleared { cleared_at ((after remove_and_put).seen 1) ≡ 1 }
    ensures first { size ((after clear_and_group).seen 1) ≡ 0 }
    ensures second { size ((after clear_and_group).seen 2) ≡ 0 }
    ensures not_left { keys ((after clear_and_group).seen 2) ≢ a ∷ [] }
    ensures messages { length (after clear_and_group).messages ≡ 4 }
{}

/// What is shown: a value that another write observed is not; an erasure hides without a write, in whatever order
/// they came; equal values of two writes are one; values ascend.
pub fn sets_show()
    ensures observed { values overwritten (plain a) ≡ y ∷ [] }
    ensures not_observed { values overwritten (plain a) ≢ x ∷ y ∷ [] }
    ensures hidden { values removed (plain a) ≡ [] }
    ensures no_key { keys removed ≡ [] }
    ensures not_hidden { keys removed ≢ a ∷ [] }
    ensures equal { values equal_values (plain a) ≡ x ∷ [] }
    ensures not_twice { values equal_values (plain a) ≢ x ∷ x ∷ [] }
    ensures ascending { values side_by_side (plain a) ≡ x ∷ y ∷ [] }
    ensures not_as_written { values side_by_side (plain a) ≢ y ∷ x ∷ [] }
    ensures one_key { size side_by_side ≡ 1 }
    ensures elsewhere { values side_by_side (plain b) ≡ [] }
    ensures both_keys { keys reused ≡ a ∷ b ∷ [] }
{}

/// Fields: a place shows what was put at it and nothing of the key's other fields; a key shows what stands at any of its
/// fields; fields ascend, each once, and the empty one comes first.
pub fn fields_show()
    ensures plain { values two_fields (plain a) ≡ y ∷ [] }
    ensures not_the_field { values two_fields (plain a) ≢ x ∷ y ∷ [] }
    ensures field { values two_fields (place_of a f) ≡ x ∷ [] }
    ensures not_the_key { values two_fields (place_of a f) ≢ y ∷ [] }
    ensures other_key { values two_fields (place_of b f) ≡ [] }
    ensures fields { fields two_fields a ≡ [] ∷ f ∷ [] }
    ensures not_as_written { fields two_fields a ≢ f ∷ [] ∷ [] }
    ensures no_fields { fields two_fields b ≡ [] }
    ensures gone { fields (Erased (dot 1 1 ∷ []) ∷ two_fields) a ≡ [] ∷ [] }
    ensures over_all { values_of_key two_fields a ≡ x ∷ y ∷ [] }
    ensures once { values_of_key equal_fields a ≡ x ∷ [] }
    ensures one_key { size two_fields ≡ 1 }
    ensures within { StandsWithin (state two_fields) a x }
    ensures holds { HoldsField (state two_fields) a f }
    ensures not_holds { ¬ (HoldsField (state two_fields) b f) }
{}

/// Removes: of a field what stands there, and of a key what stands at any of its fields.
pub fn fields_are_removed()
    ensures field { remove_field_at two_fields (place_of a f) ≡ Erased (dot 1 1 ∷ []) ∷ [] }
    ensures plain { remove_field_at two_fields (plain a) ≡ Erased (dot 2 1 ∷ []) ∷ [] }
    ensures none { remove_field_at two_fields (place_of a x) ≡ [] }
    ensures key { remove_at two_fields a ≡ Erased (dot 2 1 ∷ dot 1 1 ∷ []) ∷ [] }
    ensures not_the_empty_field_alone { remove_at two_fields a ≢ Erased (dot 2 1 ∷ []) ∷ [] }
    ensures counted { removed_at two_fields a ≡ 2 }
    ensures field_counted { field_removed_at two_fields (place_of a f) ≡ 1 }
    ensures put { put_at two_fields 1 (place_of a f) z ≡ wrote_field (dot 1 2) a f z (dot 1 1 ∷ []) ∷ [] }
{}

/// A put on a field and a put on its key do not touch each other; a remove of a field leaves a write there that it has
/// not seen; a remove of the key takes all its fields.
pub fn fields_in_a_world()
    ensures key { values ((after fields_apart).seen 1) (plain a) ≡ y ∷ [] }
    ensures field { values ((after fields_apart).seen 1) (place_of a f) ≡ x ∷ [] }
    ensures fields { fields ((after fields_apart).seen 1) a ≡ [] ∷ f ∷ [] }
    ensures kept { values ((after field_removed).seen 1) (place_of a f) ≡ z ∷ [] }
    ensures kept_too { values ((after field_removed).seen 2) (place_of a f) ≡ z ∷ [] }
    ensures key_kept { values ((after field_removed).seen 2) (plain a) ≡ y ∷ [] }
    ensures removed { removed_at ((after field_removed).seen 1) a ≡ 2 }
    ensures gone { size ((after key_removed).seen 1) ≡ 0 }
    ensures not_left { fields ((after key_removed).seen 1) a ≢ f ∷ [] }
{}

/// What is known: the dots of writes and those that were observed, also where nothing is shown any more.
pub fn sets_know()
    ensures written { has (known side_by_side) (dot 2 1) ≡ true }
    ensures not_written { has (known side_by_side) (dot 2 2) ≡ false }
    ensures removed { has (known removed) (dot 1 1) ≡ true }
    ensures erased_alone { has (known (Erased (dot 1 1 ∷ []) ∷ [])) (dot 1 1) ≡ true }
    ensures in_the_state { (state removed).has (dot 1 1) ≡ true }
    ensures not_in_the_state { (state removed).at (plain a) (dot 1 1) ≡ None }
    ensures in_the_store { (state overwritten).at (plain a) (dot 2 1) ≡ Some y }
    ensures not_in_the_store { (state overwritten).at (plain a) (dot 1 1) ≡ None }
    ensures greatest { (state (wrote (dot 1 1) a y [] ∷ wrote (dot 1 1) a x [] ∷ [])).at (plain a) (dot 1 1) ≡ Some y }
{}

/// What is made: a dot above all that are known of its name, also above removed ones; nothing where there is nothing
/// to observe; and a dot counts once, however often its write is in the list.
pub fn sets_make()
    ensures next { dot_at removed 1 ≡ dot 1 2 }
    ensures not_again { dot_at removed 1 ≢ dot 1 1 }
    ensures first { dot_at removed 2 ≡ dot 2 1 }
    ensures put { put_at side_by_side 1 (plain a) z ≡ wrote (dot 1 2) a z (dot 1 1 ∷ dot 2 1 ∷ []) ∷ [] }
    ensures put_elsewhere { put_at side_by_side 1 (plain b) z ≡ wrote (dot 1 2) b z [] ∷ [] }
    ensures remove { remove_at overwritten a ≡ Erased (dot 2 1 ∷ []) ∷ [] }
    ensures remove_nothing { remove_at removed a ≡ [] }
    ensures clear { clear_at reused ≡ Erased (dot 1 1 ∷ dot 1 1 ∷ []) ∷ [] }
    ensures clear_nothing { clear_at removed ≡ [] }
    ensures counted { removed_at side_by_side a ≡ 2 }
    ensures counted_once { removed_at (wrote (dot 1 1) a x [] ∷ wrote (dot 1 1) a x [] ∷ []) a ≡ 1 }
    ensures all_counted { cleared_at side_by_side ≡ 2 }
{}

/// What is lawful: a dot of two different writes is a reuse, and so is a write that observed itself.
pub fn reuse_is_seen()
    ensures two_writes { ¬ (NoReuse reused) }
    ensures itself { ¬ (NoReuse (wrote (dot 1 1) a x (dot 1 1 ∷ []) ∷ [])) }
    ensures lawful { NoReuse overwritten }
    ensures order { IsSameSet (wrote (dot 1 1) a x [] ∷ Erased (dot 1 1 ∷ []) ∷ []) removed }
    ensures other { ¬ (IsSameSet removed overwritten) }
{}

/// What stands, and lists that ascend.
pub fn states_show()
    ensures stands { Stands (state overwritten) (plain a) y }
    ensures not_stands { ¬ (Stands (state overwritten) (plain a) x) }
    ensures holds { HoldsKey (state overwritten) a }
    ensures not_holds { ¬ (HoldsKey (state removed) a) }
    ensures ascends { IsAscending (x ∷ y ∷ []) }
    ensures not_twice { ¬ (IsAscending (x ∷ x ∷ [])) }
{}

/// Messages are numbered from 1; 0 and a number past the end carry nothing, and an empty group makes no message.
pub fn messages_carry()
    ensures first { message (overwritten ∷ removed ∷ []) 1 ≡ overwritten }
    ensures second { message (overwritten ∷ removed ∷ []) 2 ≡ removed }
    ensures zero { message (overwritten ∷ removed ∷ []) 0 ≡ [] }
    ensures past { message (overwritten ∷ removed ∷ []) 3 ≡ [] }
    ensures none { (after (Node 1 ∷ Flush 1 ∷ [])).messages ≡ [] }
    ensures there { is_message (after concurrent_puts) 2 ≡ true }
    ensures not_there { is_message (after concurrent_puts) 3 ≡ false }
    ensures not_zero { is_message (after concurrent_puts) 0 ≡ false }
    ensures node { is_node (after concurrent_puts) 2 ≡ true }
    ensures no_node { is_node (after concurrent_puts) 3 ≡ false }
    ensures own { values ((after (concurrent_puts)).seen 3) (plain a) ≡ [] }
{}
