// What each call takes.

/// The calls, each with the words that it takes and what it does.
pub(crate) const CALLS: &[(&str, &str, &str)] = &[
    ("put", "put KEY VALUE", "writes the value on the key"),
    (
        "putf",
        "putf KEY FIELD VALUE",
        "writes the value on a field of the key",
    ),
    (
        "remove",
        "remove KEY",
        "takes away what was seen at the key",
    ),
    (
        "removef",
        "removef KEY FIELD",
        "takes away what was seen at the field",
    ),
    ("clear", "clear", "takes away all that was seen"),
    (
        "replace",
        "replace KEY VALUE OTHER",
        "in a file: writes the value on the key and takes away what was seen at OTHER, at once",
    ),
    ("get", "get KEY", "the values of the key"),
    ("getf", "getf KEY FIELD", "the values of the field"),
    (
        "values",
        "values KEY",
        "the values of the key over all its fields",
    ),
    ("fields", "fields KEY", "the fields of the key"),
    ("contains", "contains KEY", "whether the key is there"),
    ("keys", "keys", "the keys"),
    ("size", "size", "how many keys there are"),
    (
        "digest",
        "digest",
        "the digest of the map: who holds the same has the same",
    ),
    (
        "context",
        "context",
        "the writes that were seen: up to a number of each name, and single ones",
    ),
    ("name", "name", "the name of the replica"),
    (
        "flush",
        "flush [BYTES]",
        "sends what was written since the last flush, or the first of it that fits",
    ),
    ("take", "take HEX", "takes in a message that came"),
    (
        "ask",
        "ask NAME",
        "opens a synchronisation, which brings what that replica has seen",
    ),
    (
        "retry",
        "retry NUMBER",
        "sends again what a synchronisation waits for",
    ),
    ("abandon", "abandon NUMBER", "gives a synchronisation up"),
    (
        "sessions",
        "sessions",
        "the synchronisations that are open, by number, with the replicas that answer",
    ),
    (
        "compact",
        "compact",
        "in a file: keeps the replica anew, so that the file is as small as the map",
    ),
    ("help", "help", "this"),
];

/// The words that the call takes that this verb names, or where to look where it names none.
pub(crate) fn usage(verb: &[u8]) -> &'static str {
    for (name, words, _) in CALLS {
        if name.as_bytes() == verb {
            return words;
        }
    }
    "a call: help lists them"
}
