use book::answers::Cause;
use bureau::calls::Reply;
use day_calls::calls::{Answer, NotCalled, NotDone};
use quantity::afrr::Band;
use quantity::direction::Direction;
use quantity::fcr::Volume;
use quantity::interface::Quantity;
use quantity::reserve::ReserveQuantity;
use quantity::up_down::UpDown;
use refusals::refusal::Refusal;
use requests::request::Status;
use std::alloc::AllocError;
use std::fmt::Display;
use std::process::Abort;

// A reply of day 2 in these words.
fn tells<Q: ReserveQuantity + Display>(
    rt: &(impl Abort + AllocGlobal),
    answer: Result<Answer<Q>, NotDone>,
    words: &str,
) -> Result<(), AllocError> {
    let reply = Reply { day: 2, answer };
    assert_eq!(rt; reply.to_string(rt.alloc())?.as_str(), words);
    Ok(())
}

fn stands(rt: &(impl Abort + AllocGlobal), status: Status, words: &str) -> Result<(), AllocError> {
    tells::<Volume>(rt, Ok(Answer::Standing(status)), words)
}

#[test]
fn words_of_volumes(rt: HostRuntime) -> Result<(), AllocError> {
    let missing = UpDown { up: 40, down: 0 };
    tells::<Volume>(&rt, Ok(Answer::Opened), "opened 2")?;
    tells::<Volume>(&rt, Ok(Answer::Awarded), "awarded")?;
    tells::<Volume>(&rt, Ok(Answer::Placed(4095)), "place 4095")?;
    tells::<Volume>(&rt, Ok(Answer::GatePassed), "gate passed")?;
    tells(&rt, Ok(Answer::Held(Volume::of_row(100))), "holding 100")?;
    tells::<Volume>(&rt, Ok(Answer::Lacking(missing)), "missing 40")
}

#[test]
fn words_of_bands(rt: HostRuntime) -> Result<(), AllocError> {
    let missing = UpDown { up: 0, down: 20 };
    let held = Band::of_tenths(40, 20).unwrap_or(Band::zero());
    tells(&rt, Ok(Answer::Held(held)), "holding 40/20")?;
    tells::<Band>(&rt, Ok(Answer::Lacking(missing)), "missing 0/20")
}

#[test]
fn words_of_a_status(rt: HostRuntime) -> Result<(), AllocError> {
    let cause = Refusal::NoRemainder {
        provider: 0,
        quarter: 1,
    };
    stands(
        &rt,
        Status::WaitingForCounterpart,
        "Waiting for Counterpart",
    )?;
    stands(&rt, Status::BalanceOk, "Balance OK")?;
    stands(&rt, Status::BalanceError, "Balance Error")?;
    stands(&rt, Status::Confirmed, "Confirmed")?;
    stands(
        &rt,
        Status::Rejected(Some(cause)),
        "Rejected 16 provider 0 quarter 1",
    )?;
    stands(&rt, Status::Rejected(None), "Rejected")
}

#[test]
fn words_of_what_is_not_done(rt: HostRuntime) -> Result<(), AllocError> {
    let limit = Refusal::NotAdmitted {
        provider: 3,
        quarter: 40,
        cause: Cause::Limit {
            layer: 1,
            direction: Direction::Up,
        },
    };
    tells::<Volume>(&rt, Err(NotDone::Refused(Refusal::TooLate)), "refused 11")?;
    tells::<Volume>(
        &rt,
        Err(NotDone::Refused(limit)),
        "refused 18 provider 3 quarter 40 layer 1 limit up",
    )?;
    tells::<Volume>(
        &rt,
        Err(NotDone::NotCalled(NotCalled::NoSuchDay)),
        "no such day",
    )?;
    tells::<Volume>(
        &rt,
        Err(NotDone::NotCalled(NotCalled::NotInThisStage)),
        "not in this stage",
    )?;
    tells::<Volume>(
        &rt,
        Err(NotDone::NotCalled(NotCalled::NoMemory)),
        "no memory",
    )
}
