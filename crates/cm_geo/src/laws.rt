//! Laws of the addresses. These functions do nothing: what they ensure is the law.

ghost use Rattle.cm_geo.specs.declared.geo.Geo.{Geo};
ghost use Rattle.cm_geo.specs.Roles.{AreAll, AreApart, AreInRange};

/// Each word of a segment has exactly one role: every role's word is a word of the segment, no word has
/// two roles, and none is without a role.
pub fn each_word_has_one_role()
    ensures in_range { (geo : Geo) → AreInRange geo }
    ensures apart { (geo : Geo) → AreApart geo }
    ensures all { (geo : Geo) → AreAll geo }
{}
