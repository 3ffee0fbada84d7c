//! Laws of calendars' texts, each as the contract of a function that does nothing.
ghost use Rattle.std.specs.Prelude.{◌≡◌, ℤ, None};
ghost use Rattle.calendar_text.specs.CalendarTexts.{CalendarParts};
ghost use Rattle.zoned_rules.specs.Recurs.{RecursWithin};
ghost use Rattle.zoned_rules.specs.declared.zoned_recurrence.ZonedRecurrence.{ZonedRecurrence};
ghost use Rattle.calendar_rules.specs.Recurrences.{MeansRecurrence};

/// A calendar without RRULE happens once: what it means has one instance at most. RDATE may add others.
pub fn no_rule_is_one_instance()
    ensures { (ahead : ℤ → ℤ → ℤ) (zone : ℤ) (c : CalendarParts) (s : ZonedRecurrence ℤ) (u v : ℤ) → MeansRecurrence ahead zone c s → c.rule ≡ None
        → RecursWithin s.rule.local (ahead zone) s.rule.bound u → RecursWithin s.rule.local (ahead zone) s.rule.bound v → u ≡ v }
{}
