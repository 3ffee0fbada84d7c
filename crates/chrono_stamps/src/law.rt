//! Laws of the texts of instants, each as the contract of a function.
ghost use Rattle.std.specs.Prelude.{◌≡◌, ◌∷◌, ◌++◌, Bool, ℕ, ℤ, ◌-ℤ◌, List, Some, codes, neg_ℤ, pos};
ghost use Rattle.chrono_datetime.specs.Moment.{IsMoment, Moment, moment};
ghost use Rattle.chrono_datetime.specs.Time.{FractionFits, second_of, time_at};
ghost use Rattle.chrono_instant.specs.Instants.{IsEpochSecond, epoch_second};
ghost use Rattle.chrono_instant.specs.Offsets.{IsOffset};
ghost use Rattle.chrono_stamps.specs.IsoForms.{IsIso8601Text};
ghost use Rattle.chrono_stamps.specs.Rfc2822.{IsMailZone, IsRfc2822Text, hours_behind};
ghost use Rattle.chrono_stamps.specs.Rfc3339.{IsRfc3339Text};
ghost use Rattle.chrono_stamps.specs.WrittenStamps.{HasStampText, moment_cut, rfc2822_text, rfc3339_text};
ghost use Rattle.chrono_stamps.specs.declared.seconds_format.SecondsFormat.{SecondsFormat};
ghost use Rattle.chrono_stamps.specs.declared.seconds_format.SecondsFormat.TheVariants.{Secs};
ghost use Rattle.chrono_zoned.specs.ZonedText.{zoned_debug_text};

use chrono_reading::law::{known_texts_of_dates, printed_dates_are_read, printed_times_are_read};

/// The text that is written of a local date-time and an offset is read as them. What the form cuts off the fraction is lost.
pub fn written_stamps_are_read()
    ensures { (form : SecondsFormat) (use_z : Bool) (m : Moment) (x : ℤ) → IsMoment m → IsOffset x
        → HasStampText m x → IsRfc3339Text (rfc3339_text form use_z m x) (moment_cut form m) x }
{
    printed_dates_are_read();
}

/// RFC 3339 has no text of a date-time and an offset of which none is written.
pub fn no_text_is_left_out()
    ensures { (text : List ℕ) (m : Moment) (x : ℤ) → IsRfc3339Text text m x → HasStampText m x }
{}

/// The text of RFC 2822 that is written of a local date-time and an offset is read as them. The fraction of its second is lost.
pub fn written_mails_are_read()
    ensures { (m : Moment) (x : ℤ) → IsMoment m → IsOffset x → HasStampText m x
        → IsRfc2822Text (rfc2822_text m x) (moment_cut Secs m) x }
{}

/// The text of ISO 8601 that is written of a local date-time and an offset, at which UTC has a date, is read as them.
pub fn written_iso_texts_are_read()
    ensures { (m : Moment) (x : ℤ) → IsMoment m → IsOffset x → FractionFits (second_of m.time) m.time.fraction
        → IsEpochSecond (epoch_second m -ℤ x) → IsIso8601Text (zoned_debug_text m x) m x }
{
    printed_dates_are_read();
    printed_times_are_read();
}

/// The examples of RFC 3339 (5.8):
///
/// - a time of UTC, and one in the zone of Los Angeles;
/// - the leap second at the end of 1990, of UTC and in that zone;
/// - noon in the Netherlands in 1937, at the nearest offset of whole minutes.
pub fn known_rfc3339_texts()
    ensures utc { IsRfc3339Text (codes "1985-04-12T23:20:50.52Z")
        (moment (pos 724_743) (time_at 23 20 50 520_000_000)) (pos 0) }
    ensures pacific { IsRfc3339Text (codes "1996-12-19T16:39:57-08:00")
        (moment (pos 729_012) (time_at 16 39 57 0)) (neg_ℤ (pos 28_800)) }
    ensures leap { IsRfc3339Text (codes "1990-12-31T23:59:60Z")
        (moment (pos 726_832) (time_at 23 59 59 1_000_000_000)) (pos 0) }
    ensures leap_pacific { IsRfc3339Text (codes "1990-12-31T15:59:60-08:00")
        (moment (pos 726_832) (time_at 15 59 59 1_000_000_000)) (neg_ℤ (pos 28_800)) }
    ensures netherlands { IsRfc3339Text (codes "1937-01-01T12:00:27.87+00:20")
        (moment (pos 707_110) (time_at 12 0 27 870_000_000)) (pos 1_200) }
{}

/// The dates of RFC 2822, appendix A:
///
/// - one with a weekday (A.1.1), and one with a day of one digit (A.1.2);
/// - one in folded lines, with no seconds and a comment at its end (A.5);
/// - one with a year of two digits and the name of a zone (A.6.2), and one with a comment in it (A.6.3).
pub fn known_rfc2822_texts()
    ensures weekday { IsRfc2822Text (codes "Fri, 21 Nov 1997 09:55:06 -0600")
        (moment (pos 729_349) (time_at 9 55 6 0)) (neg_ℤ (pos 21_600)) }
    ensures one_digit { IsRfc2822Text (codes "Tue, 1 Jul 2003 10:52:37 +0200")
        (moment (pos 731_397) (time_at 10 52 37 0)) (pos 7_200) }
    ensures folded { IsRfc2822Text (codes "Thu," ++ (13 ∷ 10 ∷ codes "      13" ++ (13 ∷ 10 ∷ codes "        Feb" ++ (13 ∷ 10 ∷ codes "          1969" ++ (13 ∷ 10 ∷ codes "      23:32" ++ (13 ∷ 10 ∷ codes "               -0330 (Newfoundland Time)"))))))
        (moment (pos 718_841) (time_at 23 32 0 0)) (neg_ℤ (pos 12_600)) }
    ensures obsolete { IsRfc2822Text (codes "21 Nov 97 09:55:06 GMT")
        (moment (pos 729_349) (time_at 9 55 6 0)) (pos 0) }
    ensures comment { IsRfc2822Text (codes "Fri, 21 Nov 1997 09(comment):   55  :  06 -0600")
        (moment (pos 729_349) (time_at 9 55 6 0)) (neg_ℤ (pos 21_600)) }
{}

/// The names of zones of RFC 2822 (4.3), by the hours that each lies behind UTC.
///
/// The RFC gives EDT as `-0400`, EST and CDT as `-0500`, CST and MDT as `-0600`, MST and PDT as `-0700`, and PST as `-0800`.
/// So the clock of EST is 18,000 seconds behind UTC.
#[tactic(auto, unfolding(crate::specs::Rfc2822::hours_behind))]
pub fn known_rfc2822_zones()
    ensures ut { hours_behind (codes "UT") ≡ Some 0 }
    ensures gmt { hours_behind (codes "GMT") ≡ Some 0 }
    ensures edt { hours_behind (codes "EDT") ≡ Some 4 }
    ensures est { hours_behind (codes "EST") ≡ Some 5 }
    ensures cdt { hours_behind (codes "CDT") ≡ Some 5 }
    ensures cst { hours_behind (codes "CST") ≡ Some 6 }
    ensures mdt { hours_behind (codes "MDT") ≡ Some 6 }
    ensures mst { hours_behind (codes "MST") ≡ Some 7 }
    ensures pdt { hours_behind (codes "PDT") ≡ Some 7 }
    ensures pst { hours_behind (codes "PST") ≡ Some 8 }
    ensures offset { IsMailZone (codes "EST") (neg_ℤ (pos 18_000)) }
{}

/// Texts of ISO 8601, each with its value:
///
/// - a calendar date with a time and an offset, in both forms and with the hour of the offset alone;
/// - an ordinal date with no second, in the basic form;
/// - a week date with a comma.
pub fn known_iso8601_texts()
    ensures extended { IsIso8601Text (codes "1985-04-12T10:15:30+04:00")
        (moment (pos 724_743) (time_at 10 15 30 0)) (pos 14_400) }
    ensures basic { IsIso8601Text (codes "19850412T101530+0400")
        (moment (pos 724_743) (time_at 10 15 30 0)) (pos 14_400) }
    ensures hour { IsIso8601Text (codes "1985-04-12T10:15:30+04")
        (moment (pos 724_743) (time_at 10 15 30 0)) (pos 14_400) }
    ensures ordinal { IsIso8601Text (codes "1985102T1015Z")
        (moment (pos 724_743) (time_at 10 15 0 0)) (pos 0) }
    ensures week { IsIso8601Text (codes "2020-W53-7T23:59:60,25Z")
        (moment (pos 737_793) (time_at 23 59 59 1_250_000_000)) (pos 0) }
{
    known_texts_of_dates();
}
