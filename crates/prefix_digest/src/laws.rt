// The laws of the digests of replicas: what has seen the same has the same digests.
ghost use Rattle.std.specs.Prelude.{◌≡◌, ℕ, List};
ghost use Rattle.std.specs.FinMap as finite;
ghost use Rattle.causal_join.specs.OrMap.{FieldsValue};
ghost use Rattle.dots.specs.Bytes.{bytes_cmp};
ghost use Rattle.op_model.specs.Meaning.{MapState, state};
ghost use Rattle.op_model.specs.Operation.{Operation, NoReuse, IsSameSet};
ghost use Rattle.prefix_digest.specs.MapOf.{map_of, root_digest, IsMapOf};
ghost use Rattle.prefix_digest.specs.Page.{digest_at};

/// One map at most stands for a state. For the state of a set of operations in which no dot was used twice it is the map of
/// the set.
pub fn a_state_has_one_map()
    ensures one { (m n : finite.FinMap bytes_cmp FieldsValue) (p : MapState) → IsMapOf m p → IsMapOf n p → m ≡ n }
    ensures of_operations { (S : List Operation) → NoReuse S → IsMapOf (map_of S) (state S) }
{}

/// Sets of the same operations, in which no dot was used twice, have the same digest at each prefix, and the same root digest,
/// by whichever hash.
pub fn same_operations_have_same_digests()
    ensures prefixes { (hash_of : List ℕ → ℕ) (S T : List Operation) (prefix : List ℕ) → NoReuse S → IsSameSet S T →
        digest_at hash_of (map_of S) prefix ≡ digest_at hash_of (map_of T) prefix }
    ensures root { (hash_of : List ℕ → ℕ) (S T : List Operation) → NoReuse S → IsSameSet S T →
        root_digest hash_of S ≡ root_digest hash_of T }
{}
