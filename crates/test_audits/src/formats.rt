//! Journals of the formats 1 to 5.

use crate::audits::audited;
use page_audit::{AuditFault, Audited};
use std::alloc::Global;
use std::test::Fail;
use test_compactions::old::{SCRIPTS, file_of, files_with};
use test_compactions::records::{DRAWN, FORMAT_1, FORMAT_2, FORMAT_3, RENEWED};

// What an audit answers to a file of this format with these records after the first one.
fn answer(
    alloc: Global,
    format: u8,
    parts: &[&[&[u8]]],
) -> Result<Result<Audited, AuditFault>, Fail> {
    let files = files_with(alloc, file_of(alloc, format, SCRIPTS, parts)?);
    audited(alloc, &files)
}

#[test]
fn a_journal_of_each_older_format_passes(rt: HostRuntime) -> Result<(), Fail> {
    let alloc = rt.alloc();
    assert_eq!(rt;
        answer(alloc, 1, &[FORMAT_1])?,
        Ok(Audited::Yes { records: 16 })
    );
    assert_eq!(rt;
        answer(alloc, 2, &[FORMAT_2])?,
        Ok(Audited::Yes { records: 16 })
    );
    assert_eq!(rt;
        answer(alloc, 3, &[FORMAT_3])?,
        Ok(Audited::Yes { records: 16 })
    );
    assert_eq!(rt;
        answer(alloc, 4, &[FORMAT_3, RENEWED])?,
        Ok(Audited::Yes { records: 18 })
    );
    assert_eq!(rt;
        answer(alloc, 5, &[DRAWN, FORMAT_3, RENEWED])?,
        Ok(Audited::Yes { records: 19 })
    );
    Ok(())
}

#[test]
fn a_journal_of_a_format_to_come_is_damaged(rt: HostRuntime) -> Result<(), Fail> {
    let alloc = rt.alloc();
    assert_eq!(rt;
        answer(alloc, 0, &[FORMAT_3])?,
        Err(AuditFault::Damaged { place: 0 })
    );
    assert_eq!(rt;
        answer(alloc, 7, &[FORMAT_3])?,
        Err(AuditFault::Damaged { place: 0 })
    );
    Ok(())
}
