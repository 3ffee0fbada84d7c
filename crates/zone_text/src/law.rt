//! Laws of the texts of rules, each as the contract of a function.
ghost use Rattle.std.specs.Prelude.{◌≡◌, ℕ, List, codes, neg_ℤ, pos, [], None, Some};
ghost use Rattle.chrono_units.specs.declared.weekday.Weekday.TheVariants.{Sun, Thu};
ghost use Rattle.zone_rule.specs.declared.rule_day.RuleDay.TheVariants.{FromZero, Julian, Week};
ghost use Rattle.zone_rule.specs.declared.rule.ZoneRule.{ZoneRule};
ghost use Rattle.zone_text.specs.WrittenTexts.{AreNames, IsRule, zone_text};
ghost use Rattle.zone_text.specs.ZoneTexts.{IsZoneText};

/// The text that is written for a rule and its names is read as them.
pub fn written_rules_are_read()
    ensures { (standard daylight : List ℕ) (rule : ZoneRule) → AreNames standard daylight rule.daylight → IsRule rule
        → IsZoneText (zone_text standard daylight rule) standard daylight rule }
{}

/// A rule and names that have any text are written too, if the names are not too long.
pub fn no_text_is_left_out()
    ensures names { (text standard daylight : List ℕ) (rule : ZoneRule) → IsZoneText text standard daylight rule
        → AreNames standard daylight rule.daylight }
    ensures rule { (text standard daylight : List ℕ) (rule : ZoneRule) → IsZoneText text standard daylight rule → IsRule rule }
{}

/// Known texts:
///
/// - Honolulu and Jerusalem (RFC 9636, appendix B), the second with a time of 26 hours;
/// - daylight time all year (RFC 9636, section 3.3.1);
/// - Nuuk (RFC 9636, section 3.3.1), with names in angle brackets and times before midnight;
/// - Dublin, whose daylight time is behind its standard time.
pub fn known_texts()
    ensures honolulu { IsZoneText (codes "HST10") (codes "HST") [] (record { standard = neg_ℤ (pos 36_000); daylight = None }) }
    ensures jerusalem { IsZoneText (codes "IST-2IDT,M3.4.4/26,M10.5.0") (codes "IST") (codes "IDT") (record {
      standard = pos 7_200;
      daylight = Some (record {
        offset = pos 10_800;
        begins = record { day = Week 3 4 Thu; second = pos 93_600 };
        ends = record { day = Week 10 5 Sun; second = pos 7_200 };
      });
    }) }
    ensures all_year { IsZoneText (codes "XXX3EDT4,0/0,J365/23") (codes "XXX") (codes "EDT") (record {
      standard = neg_ℤ (pos 10_800);
      daylight = Some (record {
        offset = neg_ℤ (pos 14_400);
        begins = record { day = FromZero 0; second = pos 0 };
        ends = record { day = Julian 365; second = pos 82_800 };
      });
    }) }
    ensures nuuk { IsZoneText (codes "<-03>3<-02>,M3.5.0/-2,M10.5.0/-1") (codes "-03") (codes "-02") (record {
      standard = neg_ℤ (pos 10_800);
      daylight = Some (record {
        offset = neg_ℤ (pos 7_200);
        begins = record { day = Week 3 5 Sun; second = neg_ℤ (pos 7_200) };
        ends = record { day = Week 10 5 Sun; second = neg_ℤ (pos 3_600) };
      });
    }) }
    ensures dublin { IsZoneText (codes "IST-1GMT0,M10.5.0,M3.5.0/1") (codes "IST") (codes "GMT") (record {
      standard = pos 3_600;
      daylight = Some (record {
        offset = pos 0;
        begins = record { day = Week 10 5 Sun; second = pos 7_200 };
        ends = record { day = Week 3 5 Sun; second = pos 3_600 };
      });
    }) }
{}
