//! The platform over files in memory that answer as the model of a file system does.
use folder_doubles::{CallLog, first_unlike};
use folder_files::open_honest;
use std::test::Fail;

/// A page, a root record, and then none.
const SCRIPT: &str = "\
load: empty
append 7: at 0
sync: done
swap 9: done
read 0: 7 7
load: root 9
clear: done
load: empty";

#[test]
fn honest_files_keep_pages_and_the_cell(rt: HostRuntime) -> Result<(), Fail> {
    let mut platform = open_honest(rt.alloc())?;
    let log = CallLog::new(rt.alloc());
    assert_eq!(rt; first_unlike(&mut platform, &rt, &log, SCRIPT), None);
    assert!(rt; platform.is_sound());
    Ok(())
}
