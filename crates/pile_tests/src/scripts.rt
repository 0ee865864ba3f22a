use console::session::{Tally, run_script};
use script::malformed::Malformed;
use script::words::number_up_to;

fn counts(taken: u64, refused: u64) -> Tally {
    Tally {
        taken,
        refused,
        not_understood: 0,
    }
}

// Below: one script over each service, bottom and choice of limits. With limits a raise above them is refused.

#[test]
fn every_pile_of_fcr(rt: HostRuntime) -> anyhow::Result<()> {
    assert_eq!(rt;
        run_script(
            &rt,
            "service fcr\nbooks full\nlimits off\nlimit 0 up 5\nraise 0 0 6\nraise 1 0 6\nfree"
        )?,
        counts(7, 0)
    );
    assert_eq!(rt;
        run_script(
            &rt,
            "service fcr\nbooks full\nlimits on\nlimit 0 up 6\nraise 0 0 6\nraise 1 0 6\nfree"
        )?,
        counts(6, 1)
    );
    assert_eq!(rt;
        run_script(
            &rt,
            "service fcr\nbooks sparse 1\nlimits off\nlimit 0 up 5\nraise 0 0 6\nraise 1 0 6\nfree"
        )?,
        counts(6, 1)
    );
    assert_eq!(rt;
        run_script(
            &rt,
            "service fcr\nbooks sparse 1\nlimits on\nlimit 0 up 6\nraise 1 0 6\nraise 0 0 6\nraise 0 1 6\nfree"
        )?,
        counts(6, 2)
    );
    Ok(())
}

#[test]
fn every_pile_of_afrr(rt: HostRuntime) -> anyhow::Result<()> {
    assert_eq!(rt;
        run_script(
            &rt,
            "service afrr\nbooks full\nlimits off\nlimit 0 down 5\nraise 0 0 0/6\nraise 1 0 6/0\nfree"
        )?,
        counts(7, 0)
    );
    assert_eq!(rt;
        run_script(
            &rt,
            "service afrr\nbooks full\nlimits on\nlimit 0 down 6\nraise 0 0 0/6\nraise 0 0 1/0\nfree"
        )?,
        counts(6, 1)
    );
    assert_eq!(rt;
        run_script(
            &rt,
            "service afrr\nbooks sparse 1\nlimits off\nlimit 0 up 5\nraise 0 0 6/6\nraise 1 0 6/6\nfree"
        )?,
        counts(6, 1)
    );
    assert_eq!(rt;
        run_script(
            &rt,
            "service afrr\nbooks sparse 1\nlimits on\nlimit 0 up 6\nraise 0 0 6/1\nraise 0 0 6/0\nraise 0 1 6/0\nfree"
        )?,
        counts(6, 2)
    );
    Ok(())
}

#[test]
fn a_number_up_to_a_bound(rt: HostRuntime) {
    let read = |word| number_up_to(word, 10_000, Malformed::QuantityTooLarge);
    assert_eq!(rt;
        [read("010000"), read("10001"), read("+1"), read("")],
        [
            Ok(10_000),
            Err(Malformed::QuantityTooLarge),
            Err(Malformed::NotANumber),
            Err(Malformed::NotANumber),
        ]
    );
}
