use crate::fault::Fault;
use limit_layer::table::LimitTable;
use quantity::afrr::Band;
use quantity::fcr::Volume;
use script::calls::Call;
use script::malformed::Malformed;
use script::settings::{Bottom, Service, Setting, Switch};

/// What the script has chosen so far.
#[derive(Clone, Copy, PartialEq, Eq, Debug)]
pub(crate) struct Choice {
    pub(crate) service: Option<Service>,
    pub(crate) bottom: Bottom,
    // Limits may be set while they are off, and hold once they are on: so the switch stands beside them.
    pub(crate) limited: Switch,
    pub(crate) limits: LimitTable,
}

impl Choice {
    /// What holds where a script chooses nothing: there is no service, and a full book without limits.
    pub(crate) fn new() -> Choice {
        Choice {
            service: None,
            bottom: Bottom::Full,
            limited: Switch::Off,
            limits: LimitTable::new(),
        }
    }

    // Takes a setting, or refuses a limit of a provider that there is not.
    fn take(&mut self, setting: Setting) -> Result<Setting, Fault> {
        match setting {
            Setting::Service(service) => self.service = Some(service),
            Setting::Books(bottom) => self.bottom = bottom,
            Setting::Limits(switch) => self.limited = switch,
            Setting::Limit {
                provider,
                direction,
                tenths,
            } => self.limits.set(provider, direction, tenths)?,
        }
        Ok(setting)
    }

    /// Takes a setting before the first call: the service comes first, and once.
    pub(crate) fn take_early(&mut self, setting: Setting) -> Result<Setting, Fault> {
        match (self.service, setting) {
            (Some(_), Setting::Service(_)) => Err(Malformed::ServiceAgain.into()),
            (Some(_), _) | (None, Setting::Service(_)) => self.take(setting),
            (None, _) => Err(Malformed::ServiceFirst.into()),
        }
    }

    /// Takes a setting once the books are open: only a limit, for books opened later.
    pub(crate) fn take_late(&mut self, setting: Setting) -> Result<Setting, Fault> {
        match setting {
            Setting::Service(_) => Err(Malformed::ServiceAgain.into()),
            Setting::Books(_) | Setting::Limits(_) => Err(Malformed::BooksOpen.into()),
            Setting::Limit { .. } => self.take(setting),
        }
    }

    /// The service of the first call, or what is wrong: none is chosen yet, or the call cannot be read in it.
    pub(crate) fn open(&self, line: &str) -> Result<Service, Malformed> {
        let service = self.service.ok_or(Malformed::ServiceFirst)?;
        match service {
            Service::Fcr => line.parse::<Call<Volume>>().and(Ok(service)),
            Service::Afrr => line.parse::<Call<Band>>().and(Ok(service)),
        }
    }
}
