//! Whether a compaction tells the hall that it is of.

ghost use Rattle.std.specs.Prelude.{◌≡◌, true};
ghost use Rattle.service_follow.specs.Stays.{IsRetold};

use model_asked::Config;
use service_hall::{Hall, is_compacted, is_same};
use std::alloc::Global;

// Returns true only if two halls have the same history.
fn is_one_history(one: &Hall, other: &Hall) -> bool
    ensures { result ≡ true → other.now.history ≡ one.now.history }
{
    if one.len() != other.len() {
        return false;
    }
    for place in 0..one.len() {
        let (Some(exchange), Some(beside)) = (one.get(place), other.get(place)) else {
            return false;
        };
        if !is_same(&exchange, &beside) {
            return false;
        }
    }
    true
}

// Returns true only if two configs are the same.
fn is_same_config(one: Config, other: Config) -> bool
    ensures { result ≡ true → one ≡ other }
{
    if one.world != other.world {
        return false;
    }
    if one.m != other.m {
        return false;
    }
    if one.k != other.k {
        return false;
    }
    if one.limit != other.limit {
        return false;
    }
    true
}

// Returns true only if two halls have the same config and the same history.
fn is_same_hall(hall: &Hall, new: &Hall) -> bool
    ensures { result ≡ true → new.now ≡ hall.now }
{
    if !is_same_config(new.config(), hall.config()) {
        return false;
    }
    is_one_history(hall, new)
}

/// Returns true only if the second hall is a compaction of the first, or the same.
pub(crate) fn is_retold(alloc: Global, hall: &Hall, new: &Hall) -> bool
    ensures { result ≡ true → IsRetold hall.now new.now }
{
    is_same_hall(hall, new) || is_compacted(alloc, hall, new)
}
