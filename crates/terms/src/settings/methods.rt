ghost use Rattle.std.specs.Prelude.{◌≡◌, ◌≤◌, is_ok, MatchResult};
ghost use Rattle.terms.specs.declared.refusal.Refusal.TheVariants.{SettingOutOfRange};
ghost use Rattle.terms.specs.Settings.{settings_lawful, Holds};

use crate::ranges::{
    FUNDING_CAP_MAX, FUNDING_DIVISOR_MAX, FUNDING_DIVISOR_MIN, MARGIN_PERCENT_MAX,
    MARGIN_PERCENT_MIN, POINTS_RATE_MAX,
};
use crate::refusal::Refusal;
use crate::settings::Settings;

impl Settings {
    pub fn new(
        points_rate: u32,
        funding_divisor: u32,
        funding_cap: u32,
        margin_percent: u32,
    ) -> Result<Settings, Refusal>
        ensures test { is_ok result ≡ settings_lawful points_rate funding_divisor funding_cap margin_percent }
        ensures cases { MatchResult result (Holds points_rate funding_divisor funding_cap margin_percent) (λ e. e ≡ SettingOutOfRange) }
    {
        let is_lawful = points_rate <= POINTS_RATE_MAX
            && (FUNDING_DIVISOR_MIN..=FUNDING_DIVISOR_MAX).contains(&funding_divisor)
            && funding_cap <= FUNDING_CAP_MAX
            && (MARGIN_PERCENT_MIN..=MARGIN_PERCENT_MAX).contains(&margin_percent);
        if !is_lawful {
            return Err(Refusal::SettingOutOfRange);
        }
        Ok(Settings {
            points_rate,
            funding_divisor,
            funding_cap,
            margin_percent,
        })
    }

    pub fn points_rate(&self) -> u32
        ensures { result ≡ self.now.points_rate }
    {
        self.points_rate
    }

    pub fn funding_divisor(&self) -> u32
        ensures { result ≡ self.now.funding_divisor }
    {
        self.funding_divisor
    }

    pub fn funding_cap(&self) -> u32
        ensures { result ≡ self.now.funding_cap }
    {
        self.funding_cap
    }

    pub fn margin_percent(&self) -> u32
        ensures { result ≡ self.now.margin_percent }
    {
        self.margin_percent
    }
}
