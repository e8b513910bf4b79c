//! Laws of chains. The functions do nothing: each has its law as its contract.
ghost use Rattle.std.specs.Prelude.{◌↔◌, ℕ, List, [], ◌∷◌, ◌++◌, All, Contains, length};
ghost use Rattle.seal_record.specs.Sealing.{Opens};
ghost use Rattle.key_graph.specs.Opening.{Yields};
ghost use Rattle.key_graph.specs.Chains.{Link, OpensAt, YieldsAt, ChainEnds, Reached, Distinct, OneOpener};
ghost use Rattle.key_graph.specs.OwnKeys.{HaveOwnKeys};
ghost use Rattle.key_graph.specs.Maps.{IsClosed, AreListed, ReachesExactly, AreFirst, AreOpenedBy};

/// Where each page has a key of its own, no key stands twice in the list and none opens another's page, chains from the
/// roots of a map that opening does not lead out of end at exactly the addresses of the map.
pub fn reaches_exactly()
    ensures { (keys pages longer roots : List (List ℕ)) (links : List Link) →
        IsClosed pages roots links → AreListed keys links → AreFirst pages longer →
        HaveOwnKeys keys longer → Distinct keys → OneOpener keys longer →
        ReachesExactly roots pages links }
{}

/// The same over pages that came later: the map is of the first ones.
pub fn earlier_map()
    ensures { (keys pages later longer roots : List (List ℕ)) (links : List Link) →
        IsClosed pages roots links → AreListed keys links → AreFirst pages later → AreFirst later longer →
        HaveOwnKeys keys longer → Distinct keys → OneOpener keys longer →
        ReachesExactly roots later links }
{}

/// Two maps that opening does not lead out of are one, from the roots of both.
pub fn joined_maps()
    ensures { (pages roots others : List (List ℕ)) (one other : List Link) →
        IsClosed pages roots one → IsClosed pages others other →
        IsClosed pages (roots ++ others) (one ++ other) }
{}

/// A map with an address above it, whose key yields there exactly the roots, is one from that key.
pub fn map_below()
    ensures { (pages roots : List (List ℕ)) (links : List Link) (at : Link) → IsClosed pages roots links →
        OpensAt pages at → All (YieldsAt pages at) roots → ((key : List ℕ) → YieldsAt pages at key → Contains roots key) →
        IsClosed pages (at.key ∷ []) (at ∷ links) }
{}

/// What keeps keys of their own: more keys, the first of the pages alone, and one page more that a key drawn for it opens.
pub fn own_keys()
    ensures none { (keys : List (List ℕ)) → HaveOwnKeys keys [] }
    ensures more { (keys more pages : List (List ℕ)) → HaveOwnKeys keys pages → HaveOwnKeys (keys ++ more) pages }
    ensures first { (keys pages longer : List (List ℕ)) → AreFirst pages longer → HaveOwnKeys keys longer → HaveOwnKeys keys pages }
    ensures page { (keys pages : List (List ℕ)) (key page : List ℕ) → HaveOwnKeys keys pages → Opens key (length pages) page →
        ((other : List ℕ) → Yields key page other → Contains (keys ++ key ∷ []) other) →
        HaveOwnKeys (keys ++ key ∷ []) (pages ++ page ∷ []) }
{}

/// Keys that were drawn before reach over later pages what they reached then, where each later page is opened by a key drawn since.
pub fn reaches_no_more()
    ensures { (keys more pages longer roots : List (List ℕ)) → HaveOwnKeys keys pages → AreFirst pages longer →
        AreOpenedBy more pages longer → Distinct (keys ++ more) → OneOpener (keys ++ more) longer → All (Contains keys) roots →
        (addr : ℕ) → Reached roots longer addr ↔ Reached roots pages addr }
{}

/// Several keys reach what each of them reaches.
pub fn reaches_by_one()
    ensures { (roots pages : List (List ℕ)) (addr : ℕ) →
        Reached roots pages addr ↔ ((key : List ℕ) × Contains roots key × Reached (key ∷ []) pages addr) }
{}

/// A chain begins with a root on a page that it opens, and goes on with a yielded key on a page that it opens. Where neither
/// leads out of what was found, every chain ends at what was found. Its last key opens the page at its end, and is one of any
/// list that has the roots and all that its keys yield.
pub fn chains_are_found()
    ensures begins { (roots pages : List (List ℕ)) (at : Link) →
        Contains roots at.key → OpensAt pages at → ChainEnds roots pages at }
    ensures goes_on { (roots pages : List (List ℕ)) (at next : Link) → ChainEnds roots pages at →
        YieldsAt pages at next.key → OpensAt pages next → ChainEnds roots pages next }
    ensures all { (roots pages : List (List ℕ)) (found : List Link) (at : Link) →
        ((next : Link) → Contains roots next.key → OpensAt pages next → Contains found next) →
        ((one next : Link) → Contains found one → YieldsAt pages one next.key → OpensAt pages next → Contains found next) →
        ChainEnds roots pages at → Contains found at }
    ensures opens { (roots pages : List (List ℕ)) (at : Link) → ChainEnds roots pages at → OpensAt pages at }
    ensures keys { (roots pages keys : List (List ℕ)) (at : Link) → All (Contains keys) roots →
        ((one : Link) (other : List ℕ) → Contains keys one.key → YieldsAt pages one other → Contains keys other) →
        ChainEnds roots pages at → Contains keys at.key }
{}
