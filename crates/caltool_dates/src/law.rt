//! The law that the answers agree with the public functions of dates and date-times.
ghost use Rattle.std.specs.Prelude.{◌≡◌, ℕ, ℤ};
ghost use Rattle.caltool_form.specs.Named.{reach_named};
ghost use Rattle.caltool_form.specs.Texts.{text_of_date, text_of_moment};
ghost use Rattle.chrono_datetime.specs.DateText.{date_text};
ghost use Rattle.chrono_datetime.specs.Moment.{Moment, reach};
ghost use Rattle.chrono_datetime.specs.MomentText.{moment_text};

/// The dates and date-times of the answers have the texts that the public types print.
///
/// A duration moves a date-time as `NaiveDateTime::checked_add_signed` does.
#[tactic(auto, unfolding(caltool_form::specs::Named::reach_named, chrono_datetime::specs::Moment::reach))]
pub fn answers_are_of_dates()
    ensures dates { (n : ℤ) → text_of_date n ≡ date_text n }
    ensures moments { (separator : ℕ) (m : Moment)
        → text_of_moment separator m ≡ moment_text separator m }
    ensures moves { (m : Moment) (x : ℤ) → reach_named m x ≡ reach m x }
{}
