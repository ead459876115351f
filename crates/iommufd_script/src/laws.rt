//! Laws of scripts. These functions do nothing: their contracts hold of every text.

ghost use Rattle.std.specs.Prelude.{◌≡◌, ℕ, List, Ok, Some};
ghost use Rattle.iofd_words.specs.Settings.{Settings};
ghost use Rattle.iommufd_script.specs.Lines.{lines};
ghost use Rattle.iommufd_script.specs.Opening.{script_of};
ghost use Rattle.iommufd_script.specs.Script.{first_bad_line};
ghost use Rattle.iommufd_script.specs.Shape.{IsScript, IsFirstBad};
ghost use Rattle.iommufd_script.specs.declared.line.Step.{Step};

/// The good scripts are the texts whose lines say a head in its order and within the limits, and then
/// the steps; and they are read as just these.
pub fn good_scripts()
    ensures only { (text : List ℕ) (settings : Settings) (steps : List Step) →
        script_of text ≡ Ok (settings, steps)
        → IsScript (lines text) settings steps }
    ensures each { (text : List ℕ) (settings : Settings) (steps : List Step) → IsScript (lines text) settings steps
        → script_of text ≡ Ok (settings, steps) }
{}

/// The first bad line is the one with which the lines stop being the beginning of a good script. Where
/// there is none among them, it's the number of lines plus 1.
pub fn first_bad_lines()
    ensures { (text : List ℕ) (n : ℕ) → first_bad_line text ≡ Some n → IsFirstBad (lines text) n }
{}
