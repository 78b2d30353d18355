//! Tests of the command `state`.
use mcs_lines::requests::{Request, parse_request};
use mcs_model::query::Query;
use std::process::Abort;

/// Returns true if a line parses as the query `state`, which reports all state except the board, the
/// ROM and the RAM in one line.
fn is_state_query(line: &[u8]) -> bool {
    matches!(parse_request(line), Request::Ask(Query::State))
}

#[test]
fn only_the_word_state_is_the_query(rt: HostRuntime) {
    for line in [b"state".as_slice(), b"\tstate  "] {
        assert!(rt; is_state_query(line));
    }
    for line in [b"state 1".as_slice(), b"State", b"states", b"stat", b"seq"] {
        assert!(rt; !is_state_query(line));
    }
}
