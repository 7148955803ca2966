//! The text of a made session, for which words it is made, and what is written of its replies, by computation.

ghost use Rattle.std.specs.Prelude.{◌≡◌, ◌++◌, ◌∷◌, [], codes, None, Some};
ghost use Rattle.made_sessions.specs.Asked.{asked_count, short};
ghost use Rattle.made_sessions.specs.Made.{document, made, paragraph, word};

/// Words go on from the last of a thousand to the first.
pub fn words()
    ensures digit { word 7 ≡ codes "t7" }
    ensures last { word 999 ≡ codes "t999" }
    ensures first_again { word 1000 ≡ codes "t0" }
    ensures in_a_row { paragraph 995
        ≡ codes "<p>t995 t996 t997 t998 t999 t0 t1 t2 t3 t4 t5 t6 t7 t8 t9 t10 t11 t12 t13 t14</p>" }
{}

/// A document has ten paragraphs of twenty words, the first of which has the document's number.
pub fn documents()
    ensures { document 820 ≡
        codes "load d820\n<doc>"
        ++ codes "<p>t820 t821 t822 t823 t824 t825 t826 t827 t828 t829 t830 t831 t832 t833 t834 t835 t836 t837 t838 t839</p>"
        ++ codes "<p>t840 t841 t842 t843 t844 t845 t846 t847 t848 t849 t850 t851 t852 t853 t854 t855 t856 t857 t858 t859</p>"
        ++ codes "<p>t860 t861 t862 t863 t864 t865 t866 t867 t868 t869 t870 t871 t872 t873 t874 t875 t876 t877 t878 t879</p>"
        ++ codes "<p>t880 t881 t882 t883 t884 t885 t886 t887 t888 t889 t890 t891 t892 t893 t894 t895 t896 t897 t898 t899</p>"
        ++ codes "<p>t900 t901 t902 t903 t904 t905 t906 t907 t908 t909 t910 t911 t912 t913 t914 t915 t916 t917 t918 t919</p>"
        ++ codes "<p>t920 t921 t922 t923 t924 t925 t926 t927 t928 t929 t930 t931 t932 t933 t934 t935 t936 t937 t938 t939</p>"
        ++ codes "<p>t940 t941 t942 t943 t944 t945 t946 t947 t948 t949 t950 t951 t952 t953 t954 t955 t956 t957 t958 t959</p>"
        ++ codes "<p>t960 t961 t962 t963 t964 t965 t966 t967 t968 t969 t970 t971 t972 t973 t974 t975 t976 t977 t978 t979</p>"
        ++ codes "<p>t980 t981 t982 t983 t984 t985 t986 t987 t988 t989 t990 t991 t992 t993 t994 t995 t996 t997 t998 t999</p>"
        ++ codes "<p>t0 t1 t2 t3 t4 t5 t6 t7 t8 t9 t10 t11 t12 t13 t14 t15 t16 t17 t18 t19</p>"
        ++ codes "</doc>\n.\n" }
{}

/// Documents are numbered from 1, and after them come queries, a deletion, and the counts twice.
pub fn sessions()
    ensures of_one { made 1 ≡ document 1
        ++ codes "query collection()/doc[. contains text \"t5\"]\n"
        ++ codes "query collection()//p[. contains text \"t5\" ftand \"t9\" window 5 words]\n"
        ++ codes "query collection()//p[. contains text \"t5\" ftand ftnot \"t6\"]\n"
        ++ codes "stats\n"
        ++ codes "delete collection()/doc[. contains text \"t5\"]/p[1]\n"
        ++ codes "query collection()/doc[. contains text \"t5\"]\n"
        ++ codes "stats\n" }
{}

/// For how many documents words ask.
pub fn asked_documents()
    ensures two_words { asked_count (codes "--make" ∷ codes "12" ∷ []) ≡ Some 12 }
    ensures one_word { asked_count (codes "--make=4096" ∷ []) ≡ Some 4096 }
    ensures too_many { asked_count (codes "--make=4097" ∷ []) ≡ None }
    ensures none { asked_count (codes "--make" ∷ codes "0" ∷ []) ≡ None }
    ensures a_zero_before { asked_count (codes "--make" ∷ codes "07" ∷ []) ≡ None }
    ensures a_plus { asked_count (codes "--make=+7" ∷ []) ≡ None }
    ensures no_number { asked_count (codes "--make=" ∷ []) ≡ None }
    ensures no_word { asked_count (codes "--make" ∷ []) ≡ None }
    ensures after { asked_count (codes "--make=7" ∷ codes "8" ∷ []) ≡ None }
    ensures another { asked_count (codes "--mak" ∷ codes "7" ∷ []) ≡ None }
    ensures three_words { asked_count (codes "--make" ∷ codes "7" ∷ codes "8" ∷ []) ≡ None }
{}

/// What is written of replies.
pub fn short_replies()
    ensures counted { short (codes "= 2\nd\ne\n") ≡ codes "= 2\n" }
    ensures one_line { short (codes "= 0\n") ≡ codes "= 0\n" }
    ensures done { short (codes "ok\n") ≡ [] }
    ensures refused { short (codes "! 10 no target\n") ≡ [] }
{}
