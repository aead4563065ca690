ghost use Rattle.std.specs.Prelude.{◌≡◌};
ghost use Rattle.scales.specs.Measure.{Measure, MeasureLaws};

// A scale, by the measure that it stands for. Every measure keeps the laws.
pub trait Scale {
    type Cost: Copy;

    ghost measure: { Self → Measure Self.Cost };

    fn lower(&self, a: Self::Cost, b: Self::Cost) -> bool
        ensures whether_the_first_is_lower { result ≡ (measure self.now).lower a b };

    fn join(&self, a: Self::Cost, b: Self::Cost) -> Self::Cost
        ensures both_costs_together { result ≡ (measure self.now).join a b };

    fn nothing(&self) -> Self::Cost
        ensures the_cost_of_no_step { result ≡ (measure self.now).nothing };

    // The price of a step, by the points run over (0 when standing) and by whether the train stands at its goal through it.
    fn price(&self, points: u8, rests: bool) -> Self::Cost
        ensures the_price_of_the_step { result ≡ (measure self.now).price points rests };

    ghost lawful: { (s : Self) → MeasureLaws (measure s) };
}
