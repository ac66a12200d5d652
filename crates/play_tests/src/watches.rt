//! What a reader of a board sees after each command `free` of a run.
use crate::worlds::seen_of;
use script_play::Seen;
use std::test::*;

// The commands of a script, and what is seen after those of them that are `free`.
struct Watched {
    commands: &'static str,
    seen: &'static [Seen],
}

const WATCHED: &[Watched] = &[
    // The start of a launch is learned, and its end isn't.
    Watched {
        commands: "free 2024-03-31T00:00Z 2\n",
        seen: &[Seen {
            number: 1,
            prefix: 1,
            jobs_open: 1,
        }],
    },
    // So is its end.
    Watched {
        commands: "free 2024-03-31T00:00Z 20\n",
        seen: &[Seen {
            number: 1,
            prefix: 2,
            jobs_open: 0,
        }],
    },
    // A replica that is stopped has no turn.
    Watched {
        commands: "stop 0\nfree 2024-03-31T00:00Z 20\n",
        seen: &[Seen {
            number: 2,
            prefix: 0,
            jobs_open: 0,
        }],
    },
    // What rounds have learned is shown at a free turn after them.
    Watched {
        commands: "campaign 0\nround 2024-03-31T00:00Z 4\nfree 2024-03-31T00:00Z 1\n",
        seen: &[Seen {
            number: 3,
            prefix: 2,
            jobs_open: 0,
        }],
    },
    // A replica that starts again has learned nothing, and what is shown stays.
    Watched {
        commands: "free 2024-03-31T00:00Z 2\nstop 0\nrestart 0\nfree 2024-03-31T00:00Z 1\n",
        seen: &[
            Seen {
                number: 1,
                prefix: 1,
                jobs_open: 1,
            },
            Seen {
                number: 4,
                prefix: 1,
                jobs_open: 1,
            },
        ],
    },
    Watched {
        commands: "campaign 0\nround 2024-03-31T00:00Z 4\n",
        seen: &[],
    },
];

#[test]
fn each_free_command_is_seen(rt: HostRuntime) -> Result<(), Fail> {
    for row in WATCHED {
        let text = format!(in rt.alloc();
            "cronrun 1\nreplicas 1\nwindow 2024-03-31T00:00Z 2024-03-31T01:00Z\ngrace 0\n\
            crontab alice UTC 1\n0,20,40 * * * * echo hi\nscript\n{}end\n",
            row.commands
        )?;
        let seen = seen_of(&rt, rt.alloc(), &text)?;
        assert_eq!(rt; seen.as_slice(), row.seen);
    }
    Ok(())
}
