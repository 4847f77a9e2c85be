//! Whether two replies are the same.
use var_types::{GetReply, NextReply, PolicyReply, Reply, SetReply};

fn same_get(have: &GetReply, want: &GetReply) -> bool {
    match (have, want) {
        (GetReply::NotFound, GetReply::NotFound) => true,
        (
            GetReply::Ok { attributes, bytes },
            GetReply::Ok {
                attributes: other,
                bytes: wanted,
            },
        ) => attributes == other && bytes == wanted,
        _ => false,
    }
}

fn same_next(have: &NextReply, want: &NextReply) -> bool {
    match (have, want) {
        (NextReply::End, NextReply::End) | (NextReply::NoSuch, NextReply::NoSuch) => true,
        (NextReply::Ok { key }, NextReply::Ok { key: wanted }) => key == wanted,
        _ => false,
    }
}

fn same_set(have: &SetReply, want: &SetReply) -> bool {
    match (have, want) {
        (SetReply::Ok, SetReply::Ok) | (SetReply::Same, SetReply::Same) => true,
        (SetReply::Refused(reason), SetReply::Refused(wanted)) => reason == wanted,
        _ => false,
    }
}

fn same_policy(have: &PolicyReply, want: &PolicyReply) -> bool {
    match (have, want) {
        (PolicyReply::Ok, PolicyReply::Ok)
        | (PolicyReply::On, PolicyReply::On)
        | (PolicyReply::Off, PolicyReply::Off) => true,
        (PolicyReply::Entry(bytes), PolicyReply::Entry(wanted)) => bytes == wanted,
        (PolicyReply::Refused(reason), PolicyReply::Refused(wanted)) => reason == wanted,
        _ => false,
    }
}

pub(crate) fn same_reply(have: &Reply, want: &Reply) -> bool {
    match (have, want) {
        (Reply::Get(have), Reply::Get(want)) => same_get(have, want),
        (Reply::Next(have), Reply::Next(want)) => same_next(have, want),
        (Reply::Set(have), Reply::Set(want)) => same_set(have, want),
        (Reply::Policy(have), Reply::Policy(want)) => same_policy(have, want),
        (Reply::Exit(have), Reply::Exit(want)) => have == want,
        _ => false,
    }
}
