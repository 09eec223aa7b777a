use crate::runs::Wanted;
use crate::texts::{NoText, text_of_trace};
use flit_recover::Damage;
use flit_trace::{Bound, TraceError};
use std::alloc::Global;
use std::process::Abort;
use std::test::Fail;

/// The trace has this text.
fn is_told(
    rt: &impl Abort,
    alloc: Global,
    trace: &[u8],
    wanted: Wanted,
    text: &[u8],
) -> Result<(), Fail> {
    let Ok(told) = text_of_trace(alloc, Vec::from_slice(alloc, trace)?, wanted) else {
        return Err(Fail::from("there is no text"));
    };
    assert_eq!(rt; told.as_slice(), text);
    Ok(())
}

#[test]
fn empty(rt: HostRuntime) -> Result<(), Fail> {
    let trace = b"flit 1\nstructure list\nrows 4\nworkers 1\nend\n";
    let text =
        b"worker 1 loads 0 omitted 0 queued 0 persists 0 failed 0 helped 0 tries 0\nkeys\nfree 4\n";
    is_told(&rt, rt.alloc(), trace, Wanted::Report, text)
}

#[test]
fn one_insert(rt: HostRuntime) -> Result<(), Fail> {
    let trace = b"flit 1\nstructure list\nrows 4\nworkers 1\n1 insert 5\nend\n";
    let text =
        b"event 1 load 0 0:0\nevent 1 readtag 0 0\nevent 1 draw 0\nevent 1 load 1 0:0\nevent 1 load 2 0:0\nevent 1 store 1 1:5\nevent 1 store 2 1:0\nevent 1 persist 1 1:5 0:0\nevent 1 persist 2 1:0 0:0\nevent 1 raise 0 0\nevent 1 exchange 0 0:0 1:4 0:0\nevent 1 persist 0 1:4 0:0\nevent 1 lower 0 1\ncall 1 insert 5 yes\nhistory 1 1 insert 5 yes\nworker 1 loads 1 omitted 1 queued 0 persists 3 failed 0 helped 0 tries 1\nkeys 5\nfree 3\n";
    is_told(&rt, rt.alloc(), trace, Wanted::Events, text)
}

#[test]
fn stopped_before_the_write_back(rt: HostRuntime) -> Result<(), Fail> {
    let trace = b"flit 1\nstructure list\nrows 4\nworkers 1\n1 insert 5\nstop 1 11\nend\n";
    let text =
        b"call 1 insert 5 stopped\nworker 1 loads 1 omitted 1 queued 0 persists 2 failed 0 helped 0 tries 1\nkeys\nfree 4\n";
    is_told(&rt, rt.alloc(), trace, Wanted::Report, text)
}

#[test]
fn an_unfinished_update_in_the_history(rt: HostRuntime) -> Result<(), Fail> {
    let trace = b"flit 1\nstructure list\nrows 4\nworkers 1\n1 insert 5\nstop 1 12\nend\n";
    let text =
        b"call 1 insert 5 stopped\nhistory 1 1 insert 5 yes\nworker 1 loads 1 omitted 1 queued 0 persists 3 failed 0 helped 0 tries 1\nkeys 5\nfree 3\n";
    is_told(&rt, rt.alloc(), trace, Wanted::Report, text)
}

#[test]
fn settled_by_another(rt: HostRuntime) -> Result<(), Fail> {
    let trace =
        b"flit 1\nstructure list\nrows 4\nworkers 2\n1 insert 5\n2 contains 5\nstop 1 11\nend\n";
    let text =
        b"call 1 insert 5 stopped\ncall 2 contains 5 yes\nhistory 1 1 insert 5 yes\nhistory 2 1 contains 5 yes\nworker 1 loads 1 omitted 1 queued 0 persists 2 failed 0 helped 0 tries 1\nworker 2 loads 2 omitted 1 queued 1 persists 1 failed 0 helped 0 tries 1\nkeys 5\nfree 3\n";
    is_told(&rt, rt.alloc(), trace, Wanted::Report, text)
}

#[test]
fn the_order_of_exchanges_isn_t_the_history(rt: HostRuntime) -> Result<(), Fail> {
    let trace =
        b"flit 1\nstructure list\nrows 8\nworkers 2\n1 insert 3\n1 insert 6\n1 insert 9\n2 insert 1\nstop 1 45\nend\n";
    let text =
        b"call 1 insert 3 yes\ncall 1 insert 6 yes\ncall 1 insert 9 stopped\ncall 2 insert 1 yes\nhistory 1 1 insert 3 yes\nhistory 1 2 insert 6 yes\nhistory 2 1 insert 1 yes\nworker 1 loads 5 omitted 5 queued 0 persists 8 failed 0 helped 0 tries 3\nworker 2 loads 1 omitted 1 queued 0 persists 3 failed 0 helped 0 tries 1\nkeys 1 3 6\nfree 5\n";
    is_told(&rt, rt.alloc(), trace, Wanted::Report, text)
}

#[test]
fn a_write_back_nobody_asked_for(rt: HostRuntime) -> Result<(), Fail> {
    let trace =
        b"flit 1\nstructure list\nrows 4\nworkers 2\n1 insert 5\n2 evict 0\nstop 1 11\nend\n";
    let text =
        b"call 1 insert 5 stopped\nhistory 1 1 insert 5 yes\nworker 1 loads 1 omitted 1 queued 0 persists 2 failed 0 helped 0 tries 1\nworker 2 loads 0 omitted 0 queued 0 persists 1 failed 0 helped 0 tries 0\nkeys 5\nfree 3\n";
    is_told(&rt, rt.alloc(), trace, Wanted::Report, text)
}

#[test]
fn repeated_and_helped(rt: HostRuntime) -> Result<(), Fail> {
    let trace =
        b"flit 1\nstructure list\nrows 4\nworkers 2\n1 insert 5\n1 insert 5\n1 remove 5\n2 contains 5\nstop 1 27\nend\n";
    let text =
        b"call 1 insert 5 yes\ncall 1 insert 5 no\ncall 1 remove 5 stopped\ncall 2 contains 5 no\nhistory 1 1 insert 5 yes\nhistory 1 2 insert 5 no\nhistory 1 3 remove 5 yes\nhistory 2 1 contains 5 no\nworker 1 loads 5 omitted 5 queued 0 persists 4 failed 0 helped 0 tries 3\nworker 2 loads 2 omitted 2 queued 0 persists 1 failed 0 helped 1 tries 1\nkeys\nfree 4\n";
    is_told(&rt, rt.alloc(), trace, Wanted::Report, text)
}

#[test]
fn a_removed_row_isn_t_given_again(rt: HostRuntime) -> Result<(), Fail> {
    let trace =
        b"flit 1\nstructure list\nrows 4\nworkers 1\n1 insert 5\n1 remove 5\n1 insert 5\n1 contains 5\nend\n";
    let text =
        b"call 1 insert 5 yes\ncall 1 remove 5 yes\ncall 1 insert 5 yes\ncall 1 contains 5 yes\nhistory 1 1 insert 5 yes\nhistory 1 2 remove 5 yes\nhistory 1 3 insert 5 yes\nhistory 1 4 contains 5 yes\nworker 1 loads 6 omitted 6 queued 0 persists 8 failed 0 helped 0 tries 4\nkeys 5\nfree 3\n";
    is_told(&rt, rt.alloc(), trace, Wanted::Report, text)
}

#[test]
fn no_row_left(rt: HostRuntime) -> Result<(), Fail> {
    let trace = b"flit 1\nstructure list\nrows 1\nworkers 1\n1 insert 1\n1 insert 2\nend\n";
    let text =
        b"call 1 insert 1 yes\ncall 1 insert 2 full 1\nhistory 1 1 insert 1 yes\nworker 1 loads 3 omitted 3 queued 0 persists 3 failed 0 helped 0 tries 2\nkeys 1\nfree 0\n";
    is_told(&rt, rt.alloc(), trace, Wanted::Report, text)
}

#[test]
fn a_worn_word(rt: HostRuntime) -> Result<(), Fail> {
    let trace =
        b"flit 1\nstructure list\nrows 4\nworkers 1\nversions 1\n1 insert 1\n1 insert 0\nend\n";
    let text =
        b"call 1 insert 1 yes\ncall 1 insert 0 worn 0 1\nhistory 1 1 insert 1 yes\nworker 1 loads 2 omitted 2 queued 0 persists 5 failed 0 helped 0 tries 2\nkeys 1\nfree 3\n";
    is_told(&rt, rt.alloc(), trace, Wanted::Report, text)
}

#[test]
fn the_largest_key(rt: HostRuntime) -> Result<(), Fail> {
    let trace = b"flit 1\nstructure list\nrows 4\nworkers 1\n1 insert 4294967292\nend\n";
    let text =
        b"call 1 insert 4294967292 yes\nhistory 1 1 insert 4294967292 yes\nworker 1 loads 1 omitted 1 queued 0 persists 3 failed 0 helped 0 tries 1\nkeys 4294967292\nfree 3\n";
    is_told(&rt, rt.alloc(), trace, Wanted::Report, text)
}

#[test]
fn a_false_tag(rt: HostRuntime) -> Result<(), Fail> {
    let trace =
        b"flit 1\nstructure list\nplace hashed 1\nrows 8\nworkers 2\n1 insert 5\n1 insert 9\n2 contains 5\nstop 1 26\nend\n";
    let text =
        b"call 1 insert 5 yes\ncall 1 insert 9 stopped\ncall 2 contains 5 yes\nhistory 1 1 insert 5 yes\nhistory 2 1 contains 5 yes\nworker 1 loads 3 omitted 3 queued 0 persists 5 failed 0 helped 0 tries 2\nworker 2 loads 2 omitted 0 queued 2 persists 2 failed 0 helped 0 tries 1\nkeys 5\nfree 7\n";
    is_told(&rt, rt.alloc(), trace, Wanted::Report, text)
}

#[test]
fn same_version_tag_cleared(rt: HostRuntime) -> Result<(), Fail> {
    let trace =
        b"flit 1\nstructure list\nplace packed\nrows 4\nworkers 2\n1 insert 5\n2 insert 3\nturn 1 9\nturn 2 11\nturn 1 2\nend\n";
    let text =
        b"call 1 insert 5 yes\ncall 2 insert 3 yes\nhistory 1 1 insert 5 yes\nhistory 2 1 insert 3 yes\nworker 1 loads 1 omitted 1 queued 0 persists 3 failed 0 helped 0 tries 1\nworker 2 loads 1 omitted 0 queued 1 persists 4 failed 0 helped 0 tries 1\nkeys 3 5\nfree 2\n";
    is_told(&rt, rt.alloc(), trace, Wanted::Report, text)
}

#[test]
fn both_leaves_of_one_parent(rt: HostRuntime) -> Result<(), Fail> {
    let trace =
        b"flit 1\nstructure tree\nrows 12\nworkers 2\n1 insert 10\n1 insert 20\n1 remove 10\n2 remove 20\nturn 1 82\nturn 2 28\nend\n";
    let text =
        b"call 1 insert 10 yes\ncall 1 insert 20 yes\ncall 1 remove 10 yes\ncall 2 remove 20 yes\nhistory 1 1 insert 10 yes\nhistory 1 2 insert 20 yes\nhistory 1 3 remove 10 yes\nhistory 2 1 remove 20 yes\nworker 1 loads 16 omitted 16 queued 0 persists 16 failed 1 helped 0 tries 3\nworker 2 loads 8 omitted 8 queued 0 persists 3 failed 0 helped 0 tries 1\nkeys\nfree 10\n";
    is_told(&rt, rt.alloc(), trace, Wanted::Report, text)
}

#[test]
fn a_lost_exchange(rt: HostRuntime) -> Result<(), Fail> {
    let trace =
        b"flit 1\nstructure list\nrows 4\nworkers 2\n1 insert 5\n2 insert 3\nturn 1 10\nturn 2 14\nend\n";
    let text =
        b"call 1 insert 5 yes\ncall 2 insert 3 yes\nhistory 2 1 insert 3 yes\nhistory 1 1 insert 5 yes\nworker 1 loads 3 omitted 3 queued 0 persists 5 failed 1 helped 0 tries 2\nworker 2 loads 1 omitted 0 queued 1 persists 4 failed 0 helped 0 tries 1\nkeys 3 5\nfree 2\n";
    is_told(&rt, rt.alloc(), trace, Wanted::Report, text)
}

#[test]
fn a_worn_word_of_the_tree(rt: HostRuntime) -> Result<(), Fail> {
    let trace =
        b"flit 1\nstructure tree\nrows 4\nworkers 1\nversions 1\n1 insert 10\n1 insert 20\nend\n";
    let text =
        b"call 1 insert 10 yes\ncall 1 insert 20 worn 19 1\nhistory 1 1 insert 10 yes\nworker 1 loads 8 omitted 8 queued 0 persists 13 failed 0 helped 0 tries 2\nkeys 10\nfree 2\n";
    is_told(&rt, rt.alloc(), trace, Wanted::Report, text)
}

#[test]
fn values_in_a_trace(rt: HostRuntime) -> Result<(), Fail> {
    let trace =
        b"flit 2\nstructure list\nrows 4\nworkers 1\n1 insert 5 70\n1 insert 5 80\n1 get 5\n1 get 6\nend\n";
    let text =
        b"call 1 insert 5 70 yes\ncall 1 insert 5 80 no\ncall 1 get 5 value 70\ncall 1 get 6 no\nhistory 1 1 insert 5 70 yes\nhistory 1 2 insert 5 80 no\nhistory 1 3 get 5 value 70\nhistory 1 4 get 6 no\nworker 1 loads 7 omitted 7 queued 0 persists 4 failed 0 helped 0 tries 4\nkeys 5\nvalues 70\nfree 3\n";
    is_told(&rt, rt.alloc(), trace, Wanted::Report, text)
}

#[test]
fn a_start_image_of_version_1(rt: HostRuntime) -> Result<(), Fail> {
    let trace =
        b"flit 2\nstructure list\nrows 4\nworkers 1\nstart 1\nword 0 3:8\nword 1 1:5\nword 2 2:1\nword 3 1:5\nword 4 1:0\nbegin\n1 get 5\n1 insert 6 9\nend\n";
    let text =
        b"call 1 get 5 value 0\ncall 1 insert 6 9 yes\nhistory 1 1 get 5 value 0\nhistory 1 2 insert 6 9 yes\nworker 1 loads 4 omitted 4 queued 0 persists 4 failed 0 helped 0 tries 2\nkeys 5 6\nvalues 0 9\nfree 2\n";
    is_told(&rt, rt.alloc(), trace, Wanted::Report, text)
}

#[test]
fn one_insert_without_its_events(rt: HostRuntime) -> Result<(), Fail> {
    let trace = b"flit 1\nstructure list\nrows 4\nworkers 1\n1 insert 5\nend\n";
    let text =
        b"call 1 insert 5 yes\nhistory 1 1 insert 5 yes\nworker 1 loads 1 omitted 1 queued 0 persists 3 failed 0 helped 0 tries 1\nkeys 5\nfree 3\n";
    is_told(&rt, rt.alloc(), trace, Wanted::Report, text)
}

#[test]
fn one_insert_in_six_counts(rt: HostRuntime) -> Result<(), Fail> {
    let trace = b"flit 1\nstructure list\nrows 4\nworkers 1\n1 insert 5\nend\n";
    let text = b"calls 1\ndone 1\nstopped 0\nfull 0\nworn 0\nkeys 1\n";
    is_told(&rt, rt.alloc(), trace, Wanted::Summary, text)
}

#[test]
fn stopped_before_the_write_back_and_taken_ahead(rt: HostRuntime) -> Result<(), Fail> {
    let trace = b"flit 1\nstructure list\nrows 4\nworkers 1\n1 insert 5\nstop 1 11\nahead 0\nend\n";
    let text =
        b"call 1 insert 5 stopped\nhistory 1 1 insert 5 yes\nworker 1 loads 1 omitted 1 queued 0 persists 2 failed 0 helped 0 tries 1\nkeys 5\nfree 3\n";
    is_told(&rt, rt.alloc(), trace, Wanted::Report, text)
}

#[test]
fn stopped_before_the_write_back_in_six_counts(rt: HostRuntime) -> Result<(), Fail> {
    let trace = b"flit 1\nstructure list\nrows 4\nworkers 1\n1 insert 5\nstop 1 11\nend\n";
    let text = b"calls 1\ndone 0\nstopped 1\nfull 0\nworn 0\nkeys 0\n";
    is_told(&rt, rt.alloc(), trace, Wanted::Summary, text)
}

#[test]
fn the_image_of_a_removed_row(rt: HostRuntime) -> Result<(), Fail> {
    let trace =
        b"flit 1\nstructure list\nrows 4\nworkers 1\n1 insert 5\n1 remove 5\n1 insert 5\n1 contains 5\nend\n";
    let text =
        b"image 1\nstructure list\nrows 4\nword 0 3:8\nword 1 1:5\nword 2 2:1\nword 3 1:5\nword 4 1:0\nend\n";
    is_told(&rt, rt.alloc(), trace, Wanted::Image, text)
}

#[test]
fn a_bucket(rt: HostRuntime) -> Result<(), Fail> {
    let trace = b"flit 1\nstructure hash 256\nrows 4\nworkers 1\n1 insert 1\nend\n";
    let text =
        b"image 1\nstructure hash 256\nrows 4\nword 177 1:4\nword 256 1:1\nword 257 1:0\nend\n";
    is_told(&rt, rt.alloc(), trace, Wanted::Image, text)
}

#[test]
fn the_image_of_values(rt: HostRuntime) -> Result<(), Fail> {
    let trace =
        b"flit 2\nstructure list\nrows 4\nworkers 1\n1 insert 5 70\n1 insert 5 80\n1 get 5\n1 get 6\nend\n";
    let text =
        b"image 2\nstructure list\nrows 4\nword 0 1:4\nword 1 1:5\nword 2 1:0\nword 9 1:70\nend\n";
    is_told(&rt, rt.alloc(), trace, Wanted::Image, text)
}

#[test]
fn the_image_behind_a_start_image_of_version_1(rt: HostRuntime) -> Result<(), Fail> {
    let trace =
        b"flit 2\nstructure list\nrows 4\nworkers 1\nstart 1\nword 0 3:8\nword 1 1:5\nword 2 2:1\nword 3 1:5\nword 4 1:0\nbegin\n1 get 5\n1 insert 6 9\nend\n";
    let text =
        b"image 2\nstructure list\nrows 4\nword 0 3:8\nword 1 2:6\nword 2 3:0\nword 3 1:5\nword 4 2:4\nword 9 1:9\nend\n";
    is_told(&rt, rt.alloc(), trace, Wanted::Image, text)
}

/// The trace has no text, for this reason.
fn has_none(
    rt: &impl Abort,
    alloc: Global,
    trace: &[u8],
    wanted: Wanted,
    none: NoText,
) -> Result<(), Fail> {
    let Err(told) = text_of_trace(alloc, Vec::from_slice(alloc, trace)?, wanted) else {
        return Err(Fail::from("there is a text"));
    };
    assert_eq!(rt; told, none);
    Ok(())
}

#[test]
fn a_start_image_that_isn_t_lawful(rt: HostRuntime) -> Result<(), Fail> {
    let trace =
        b"flit 2\nstructure list\nrows 4\nworkers 1\nstart 2\nword 0 1:4\nword 1 1:5\nword 2 1:4\nbegin\nend\n";
    let damage = Damage::Shared { row: 1 };
    has_none(
        &rt,
        rt.alloc(),
        trace,
        Wanted::Report,
        NoText::Start(damage),
    )
}

#[test]
fn a_cut_trace(rt: HostRuntime) -> Result<(), Fail> {
    let trace = b"flit 1\nstructure list\nrows 4\nworkers 1\n1 insert 5\n";
    let error = TraceError::NoEnd { line: 6 };
    has_none(&rt, rt.alloc(), trace, Wanted::Image, NoText::Trace(error))
}

#[test]
fn a_limit(rt: HostRuntime) -> Result<(), Fail> {
    let trace = b"flit 1\nstructure list\nrows 1048576\nworkers 1\nend\n";
    let limit = Bound::Rows;
    let error = TraceError::Limit { line: 3, limit };
    has_none(&rt, rt.alloc(), trace, Wanted::Report, NoText::Trace(error))?;
    let trace = b"flit 1\nstructure list\nrows 0\nworkers 1\nend\n";
    let error = TraceError::BadLine { line: 3 };
    has_none(&rt, rt.alloc(), trace, Wanted::Report, NoText::Trace(error))
}

// A trace that isn't played comes before its start image.
#[test]
fn a_counter_for_each_line_waits(rt: HostRuntime) -> Result<(), Fail> {
    let trace = b"flit 1\nstructure list\nplace lines\nrows 4\nworkers 1\n1 insert 5\nend\n";
    has_none(&rt, rt.alloc(), trace, Wanted::Events, NoText::Unplayable)?;
    let trace =
        b"flit 2\nstructure list\nplace lines\nrows 4\nworkers 1\nstart 2\nword 0 1:4\nword 1 1:5\nword 2 1:4\nbegin\nend\n";
    has_none(&rt, rt.alloc(), trace, Wanted::Report, NoText::Unplayable)
}
