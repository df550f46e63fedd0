//! How a program ends with each answer.

use nr_top::Status;
use std::test::Fail;

/// Each answer, with the exit status and the line that are its own.
const ENDS: [(Status, u8, &str); 11] = [
    (Status::Done, 0, "0"),
    (Status::Usage, 1, "1"),
    (Status::Config { kind: 4, entry: 33 }, 2, "2 4 33"),
    (
        Status::Genesis {
            kind: 4,
            a: 1,
            b: 100,
            c: 18446744073709551615,
        },
        3,
        "3 4 1 100 18446744073709551615",
    ),
    (Status::Blocks { kind: 5, a: 143 }, 4, "4 5 143"),
    (Status::ReadFault, 5, "5"),
    (Status::WriteFault, 6, "6"),
    (Status::NoMemory, 7, "7"),
    (Status::Schedule { kind: 1, line: 23 }, 8, "8 1 23"),
    (Status::Proof { kind: 1, line: 2 }, 10, "10 1 2"),
    (Status::NoItem { count: 5 }, 11, "11 5"),
];

#[test]
fn each_answer_ends_with_its_number(rt: HostRuntime) -> Result<(), Fail> {
    for (status, number, line) in ENDS {
        assert_eq!(rt; status.exit_status(), number);
        assert_eq!(rt; format!(in rt.alloc(); "{status}")?.as_str(), line);
    }
    Ok(())
}
