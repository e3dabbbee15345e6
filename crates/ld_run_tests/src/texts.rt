//! Streams and their reports.

/// Two traces that take the same locks in opposite orders.
pub const INVERSION: &[u8] = b"trace ab
acquire t A
acquire t B
release t B
release t A
trace ba
acquire t B
acquire t A
release t A
release t B
";

pub const INVERSION_REPORT: &[u8] = b"traces 2 refused 0 events 8 classes 2 dependencies 2
inversion A -> B at ab:3 via B -> A
inversion B -> A at ba:8 via A -> B
violations 2
";

/// Three traces whose orders close a circle of three classes.
pub const THREE_TRACES: &[u8] = b"trace x
acquire t A
acquire t B
trace y
acquire t B
acquire t C
trace z
acquire t C
acquire t A
";

pub const THREE_TRACES_REPORT: &[u8] = b"traces 3 refused 0 events 6 classes 3 dependencies 3
inversion A -> B at x:3 via B -> C -> A
inversion B -> C at y:6 via C -> A -> B
inversion C -> A at z:9 via A -> B -> C
violations 3
";

/// The same two classes and a third one between them.
pub const FORBIDDEN_THROUGH: &[u8] = b"trace g
enter t hard
acquire t H
release t H
exit t hard
disable t hard
acquire t H
acquire t M
release t M
release t H
acquire t M
acquire t U
release t U
release t M
enable t hard
acquire t U
";

pub const FORBIDDEN_THROUGH_REPORT: &[u8] = b"traces 1 refused 0 events 15 classes 3 dependencies 2
forbidden hard H {-...} in g:3 -> U {+.+.} on g:16 via H -> M -> U
violations 1
";

/// One class that violates every rule.
pub const EVERY_KIND: &[u8] = b"trace v
acquire t A
release t A
enter t hard
acquire t A
acquire t A@2
";

pub const EVERY_KIND_REPORT: &[u8] = b"traces 1 refused 0 events 5 classes 1 dependencies 1
recursion A at v:6
conflict hard A {?.+.} in v:5 on v:2
forbidden hard A {?.+.} in v:5 -> A {?.+.} on v:2 via A -> A
violations 3
";

/// Twenty traces of one label that show the same.
pub const TWENTY_EQUAL: &[u8] =
    b"trace a\nacquire t A\nacquire t B\ntrace a\nacquire t A\nacquire t B\n\
    trace a\nacquire t A\nacquire t B\ntrace a\nacquire t A\nacquire t B\n\
    trace a\nacquire t A\nacquire t B\ntrace a\nacquire t A\nacquire t B\n\
    trace a\nacquire t A\nacquire t B\ntrace a\nacquire t A\nacquire t B\n\
    trace a\nacquire t A\nacquire t B\ntrace a\nacquire t A\nacquire t B\n\
    trace a\nacquire t A\nacquire t B\ntrace a\nacquire t A\nacquire t B\n\
    trace a\nacquire t A\nacquire t B\ntrace a\nacquire t A\nacquire t B\n\
    trace a\nacquire t A\nacquire t B\ntrace a\nacquire t A\nacquire t B\n\
    trace a\nacquire t A\nacquire t B\ntrace a\nacquire t A\nacquire t B\n\
    trace a\nacquire t A\nacquire t B\ntrace a\nacquire t A\nacquire t B\n";

pub const TWENTY_EQUAL_REPORT: &[u8] =
    b"traces 20 refused 0 events 40 classes 2 dependencies 1\nclean\n";
